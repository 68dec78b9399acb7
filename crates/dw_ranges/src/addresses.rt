//! What the addresses of a unit's entries are read by.

ghost use Rattle.std.specs.Prelude.{◌≡◌, ◌≤◌};

/// What the addresses of a unit's entries and the range lists that they name are read by.
#[derive(Clone, Copy, Debug)]
pub struct UnitAddresses<'a> {
    /// The version in the unit's header.
    pub version: u16,
    /// How many bytes an address has: 4 or 8.
    pub address_size: u8,
    /// The base address of the unit, if it has one: DW_AT_low_pc of its first entry (DWARF 5, 3.1.1).
    pub base: Option<u64>,
    /// The slots of the unit's contribution to `.debug_addr`, without its header. Empty if there is none.
    pub slots: &'a [u8],
    /// DW_AT_rnglists_base of its first entry, if it has one.
    pub lists_base: Option<u32>,
    ghost some: { 1 ≤ address_size },
    ghost few: { address_size ≤ 8 },
}
