//! Words of the command line, and what is written for addresses.

use crate::json::{frame_value, put_answer_object};
use crate::lines::{put_frame_lines, put_unknown_lines};
use crate::request::Request;
use crate::words::{WordsFault, words};
use std::test::Fail;

/// The words after the program's name, and the request, the file's name and the addresses that they give.
type Words = (
    &'static [&'static str],
    Result<(Request, &'static str, &'static [Option<u64>]), WordsFault>,
);

const CHECK: Request = Request::Check { json: false };

const FIND: Request = Request::Find { json: false };

const WORDS: [Words; 16] = [
    (&["check", "f"], Ok((CHECK, "f", &[]))),
    (
        &["check", "--json", "f"],
        Ok((Request::Check { json: true }, "f", &[])),
    ),
    (&["find", "f"], Ok((FIND, "f", &[]))),
    (
        &["find", "f", "--json"],
        Ok((Request::Find { json: true }, "f", &[])),
    ),
    (
        &["find", "f", "0x10", "fF"],
        Ok((FIND, "f", &[Some(0x10), Some(0xff)])),
    ),
    (
        &["find", "--json", "f", "0xffffffffffffffff"],
        Ok((Request::Find { json: true }, "f", &[Some(u64::MAX)])),
    ),
    (
        &[
            "find",
            "f",
            "0x",
            "",
            "0X1",
            "+1",
            "1g",
            "10000000000000000",
        ],
        Ok((FIND, "f", &[None, None, None, None, None, None])),
    ),
    (&["find", "f", "--", "-1"], Ok((FIND, "f", &[None]))),
    (&["find", "f", "-1"], Err(WordsFault::BadUsage)),
    (&["find"], Err(WordsFault::BadUsage)),
    (&["check"], Err(WordsFault::BadUsage)),
    (&["check", "f", "0x10"], Err(WordsFault::BadUsage)),
    (&["show", "f"], Err(WordsFault::BadUsage)),
    (&["help"], Err(WordsFault::BadUsage)),
    (&["find", "--help"], Err(WordsFault::BadUsage)),
    (&[], Err(WordsFault::BadUsage)),
];

#[test]
fn words_after_the_name(rt: HostRuntime) -> Result<(), Fail> {
    for (texts, want) in &WORDS {
        let mut given = Vec::new(rt.alloc());
        for text in *texts {
            given.push(String::from_str(rt.alloc(), text)?)?;
        }
        let found = words(rt.alloc(), given.as_slice());
        let found = match &found {
            Ok(given) => Ok((
                given.request,
                given.file.as_str(),
                given.addresses.as_slice(),
            )),
            Err(fault) => Err(*fault),
        };
        assert_eq!(rt; found, *want, "{texts:?}");
    }
    Ok(())
}

#[test]
fn lines_of_frames(rt: HostRuntime) -> Result<(), Fail> {
    let mut text = Vec::new(rt.alloc());
    put_frame_lines(&mut text, Some(b"f"), Some(b"/src/t.c"), 1, 71)?;
    put_frame_lines(&mut text, None, None, 0, 0)?;
    put_frame_lines(&mut text, Some(b"a\n\\\x7f\xff"), None, 3, 0)?;
    put_unknown_lines(&mut text)?;
    let want = b"f\n/src/t.c:1:71\n??\n??:0:0\na\\x0a\\x5c\\x7f\xff\n??:3:0\n??\n??:0:0\n\n";
    assert_eq!(rt; text.as_slice(), want.as_slice());
    Ok(())
}

#[test]
fn objects_of_answers(rt: HostRuntime) -> Result<(), Fail> {
    let alloc = rt.alloc();
    let mut text = Vec::new(alloc);
    let mut frames = Vec::new(alloc);
    frames.push(frame_value(alloc, Some(b"f"), Some(b"/src/t.c"), 1, 71)?)?;
    put_answer_object(&mut text, alloc, Some(0x1040), frames)?;
    let mut frames = Vec::new(alloc);
    frames.push(frame_value(alloc, Some(b"\n\xc3\xa9"), None, 0, 0)?)?;
    put_answer_object(&mut text, alloc, Some(0), frames)?;
    let mut frames = Vec::new(alloc);
    frames.push(frame_value(alloc, None, Some(b"\n\xff"), 2, 0)?)?;
    put_answer_object(&mut text, alloc, None, frames)?;
    let want =
        "{\"address\":\"0x1040\",\"frames\":[{\"column\":71,\"file\":\"/src/t.c\",\"function\":\"f\",\
        \"line\":1}]}\n\
        {\"address\":\"0x0\",\"frames\":[{\"column\":null,\"file\":null,\"function\":\"\\\\x0a\u{e9}\",\
        \"line\":null}]}\n\
        {\"address\":null,\"frames\":[{\"column\":null,\"file\":\"\\\\x0a\\\\xff\",\"function\":null,\
        \"line\":2}]}\n";
    assert_eq!(rt; text.as_slice(), want.as_bytes());
    Ok(())
}
