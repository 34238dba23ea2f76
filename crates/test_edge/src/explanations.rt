//! What the program says of how it ended.

use command_line::{Explanation, Status, StatusLine, Usage};
use command_words::CommandWord;
use ex_base::{Area, PageNo, Seen};
use session_views::Part;
use std::alloc::{AllocError, Global};
use std::io;
use std::io::ErrorKind;
use std::test::Fail;

const FORMAT: &str = "format w --page-size 512 --pages 64 --segs 16 --seg-len 1 --fan 2";

fn words_of(alloc: Global, line: &str) -> Result<Vec<String>, AllocError> {
    let mut words = Vec::new(alloc);
    for word in line.split_whitespace() {
        words.push(String::from_str(alloc, word)?)?;
    }
    Ok(words)
}

fn misfit(field: u8, dump: u32, volume: u32) -> Status {
    Status::Misfit {
        field,
        dump,
        volume,
    }
}

fn lack(area: Area, need: u64, free: u64) -> Status {
    Status::NoRoom { area, need, free }
}

#[test]
fn wrong_words_are_told_by_the_grammar_of_their_command(rt: HostRuntime) -> Result<(), Fail> {
    let alloc = rt.alloc();
    let rows = [
        ("", "no command", None),
        ("frob v", "'frob' is no command", None),
        (
            "run",
            "run takes a VOLUME, and no word names one",
            Some(CommandWord::Run),
        ),
        (
            "format -v",
            "'-v' is neither an option of format nor a VOLUME",
            Some(CommandWord::Format),
        ),
        (
            "check v w",
            "'w' is a second VOLUME, after 'v'",
            Some(CommandWord::Check),
        ),
        (
            "run v --bogus 3",
            "'--bogus' is neither an option of run nor a VOLUME",
            Some(CommandWord::Run),
        ),
        (
            "run v --max-bytes 1 --max-bytes=2",
            "--max-bytes stands there twice",
            Some(CommandWord::Run),
        ),
        (
            "run v --max-bytes=+1",
            "--max-bytes takes N, not '+1'",
            Some(CommandWord::Run),
        ),
        (
            "format v --page-size 1000",
            "--page-size takes 512|1024|2048|4096|8192, not '1000'",
            Some(CommandWord::Format),
        ),
        (
            "format --pages 0 v w",
            "--pages takes 1..4000000, not '0'",
            Some(CommandWord::Format),
        ),
        (
            "format v --segs=4000001",
            "--segs takes 0..4000000, not '4000001'",
            Some(CommandWord::Format),
        ),
        (
            "format v --seg-len --fan 2",
            "--seg-len takes 1..16, not '--fan'",
            Some(CommandWord::Format),
        ),
        (
            "format --fan 21 v --page-size 512",
            "--fan takes 2..20 with pages of 512 bytes, not '21'",
            Some(CommandWord::Format),
        ),
        (
            "format v --fan",
            "--fan takes 2..(page size - 20) / 24, and no word is left",
            Some(CommandWord::Format),
        ),
        (
            "gen v --count 1",
            "gen takes --seed N, and it isn't there",
            Some(CommandWord::Gen),
        ),
        (
            "gen v --seed 1",
            "gen takes --count 1..1000000, and it isn't there",
            Some(CommandWord::Gen),
        ),
        (
            "gen v --seed 1 --count 0",
            "--count takes 1..1000000, not '0'",
            Some(CommandWord::Gen),
        ),
    ];
    for (line, text, command) in rows {
        let words = words_of(alloc, line)?;
        let told = Explanation {
            words: &words,
            volume: None,
            status: Status::Usage,
            cause: None,
        };
        let usage = Usage(command);
        let wanted = format!(in alloc; "exsm: {text}\n{usage}")?;
        assert!(rt; format!(in alloc; "{told}")?.as_str() == wanted.as_str());
    }
    Ok(())
}

#[test]
fn who_asks_for_help_is_shown_the_usage_alone(rt: HostRuntime) -> Result<(), Fail> {
    let alloc = rt.alloc();
    for line in ["help", "--help", "-h"] {
        let words = words_of(alloc, line)?;
        let told = Explanation {
            words: &words,
            volume: None,
            status: Status::Usage,
            cause: None,
        };
        let usage = Usage(None);
        assert!(rt;
            format!(in alloc; "{told}")?.as_str() == format!(in alloc; "{usage}")?.as_str()
        );
    }
    Ok(())
}

#[test]
fn each_status_has_its_reason(rt: HostRuntime) -> Result<(), Fail> {
    let alloc = rt.alloc();
    let system = Some(io::Error::from_raw_os_error(28));
    let missing = Some(io::Error::from_raw_os_error(2));
    let locked = Some(io::Error::new(ErrorKind::WouldBlock, "another run has it open"));
    let damaged = Status::Damaged {
        page: PageNo(259),
        want: Seen {
            kind: 2,
            level: 1,
            total: 1000,
        },
        got: Seen {
            kind: 0,
            level: 0,
            total: 0,
        },
    };
    let small = Status::TooSmall {
        have: 1000,
        need: 172_544,
    };
    let rows = [
        (
            "run v",
            Status::ScriptFault,
            system,
            "standard input: No space left on device (os error 28)",
        ),
        (
            "run v",
            Status::OutputFault,
            system,
            "standard output: No space left on device (os error 28); commits whose reply was sent stay",
        ),
        (
            FORMAT,
            Status::OutputFault,
            system,
            "standard output: No space left on device (os error 28); the volume is made",
        ),
        (
            "dump v",
            Status::OutputFault,
            system,
            "standard output: No space left on device (os error 28); what was sent is no whole dump",
        ),
        (
            "load v",
            Status::OutputFault,
            system,
            "standard output: No space left on device (os error 28); the dump is loaded",
        ),
        (
            "pack v",
            Status::OutputFault,
            system,
            "standard output: No space left on device (os error 28); the volume is packed",
        ),
        (
            "run v",
            Status::DiskFault,
            missing,
            "v: No such file or directory (os error 2) (exsm format makes a volume)",
        ),
        (
            FORMAT,
            Status::DiskFault,
            missing,
            "w: No such file or directory (os error 2) (its folder isn't there)",
        ),
        (
            "run v",
            Status::DiskFault,
            locked,
            "v: another run has it open",
        ),
        (
            "run v",
            Status::BadVolume { part: Part::Node },
            None,
            "v holds no volume, or a damaged one: part node, a node of an object's tree. It is as it was; exsm_volume.py v save FOLDER saves what can be read",
        ),
        (
            "run v",
            Status::Memory,
            None,
            "no memory; commits that were answered stay",
        ),
        (
            "run v",
            damaged,
            None,
            "page 259: wanted kind 2, level 1, total 1000; found kind 0, level 0, total 0",
        ),
        (
            "run a\u{1b}[2J\u{7f}\u{e9}",
            Status::DiskFault,
            locked,
            "a\\u{1b}[2J\\u{7f}\u{e9}: another run has it open",
        ),
        (
            FORMAT,
            Status::AlreadyVolume,
            None,
            "w begins as a volume does; nothing was written. To make it anew, remove the file, or write zeros over the front of the device",
        ),
        (
            FORMAT,
            small,
            None,
            "w has 1000 bytes, the volume needs 172544; nothing was written. Make a smaller volume, or remove it if it is a file",
        ),
        (
            "run v",
            Status::ScriptLong { max: 5 },
            None,
            "the script has more than 5 bytes; the lines within them were answered",
        ),
    ];
    for (line, status, cause, text) in rows {
        let words = words_of(alloc, line)?;
        let told = Explanation {
            words: &words,
            volume: words.get(1).map(|word| word.as_str()),
            status,
            cause,
        };
        let wanted = format!(in alloc; "exsm: {text}")?;
        assert!(rt; format!(in alloc; "{told}")?.as_str() == wanted.as_str());
    }
    Ok(())
}

#[test]
fn the_last_line_has_the_number_and_the_name(rt: HostRuntime) -> Result<(), Fail> {
    let alloc = rt.alloc();
    assert!(rt; StatusLine::of(Status::Done).is_none());
    let rows = [
        (Status::Usage, "exsm: status 2 usage"),
        (
            Status::BadVolume { part: Part::Super },
            "exsm: status 6 bad volume super",
        ),
        (Status::AlreadyVolume, "exsm: status 9 already a volume"),
        (Status::ScriptLong { max: 0 }, "exsm: status 11 script long"),
    ];
    for (status, text) in rows {
        let Some(line) = StatusLine::of(status) else {
            return Err("a status has no line".into());
        };
        assert!(rt; format!(in alloc; "{line}")?.as_str() == text);
    }
    let unread = [
        (ErrorKind::OutOfMemory, Status::Memory),
        (ErrorKind::InvalidData, Status::Usage),
    ];
    for (reason, status) in unread {
        assert!(rt; Status::of_unread_words(reason) == status);
    }
    Ok(())
}

#[test]
fn each_refusal_of_a_stream_has_its_reason_and_its_name(rt: HostRuntime) -> Result<(), Fail> {
    let alloc = rt.alloc();
    let rows = [
        (
            Status::NotEmpty,
            "v isn't empty; a dump is loaded into a volume that format just made. It is as it was",
            "12 not empty",
        ),
        (
            Status::BadDump,
            "the standard input is no dump, or a damaged one; v is as it was",
            "13 bad dump",
        ),
        (
            misfit(1, 1024, 512),
            "the dump is of a volume with page size 1024, v has 512",
            "14 misfit",
        ),
        (
            misfit(2, 1, 2),
            "the dump is of a volume with seg len 1, v has 2",
            "14 misfit",
        ),
        (
            misfit(3, 3, 2),
            "the dump is of a volume with fan 3, v has 2",
            "14 misfit",
        ),
        (
            lack(Area::Page, 6, 5),
            "the dump needs 6 pages, v has 5 free: make a larger one",
            "15 no room",
        ),
        (
            lack(Area::Segment, 2, 1),
            "the dump needs 2 segs, v has 1 free: make a larger one",
            "15 no room",
        ),
        (
            Status::NoPages { need: 1, free: 0 },
            "an object needs 1 free pages to be moved, v has 0; objects before it were moved, and everything is as it was",
            "16 no pages",
        ),
    ];
    for (status, text, last) in rows {
        let told = Explanation {
            words: &[],
            volume: Some("v"),
            status,
            cause: None,
        };
        let wanted = format!(in alloc; "exsm: {text}")?;
        assert!(rt; format!(in alloc; "{told}")?.as_str() == wanted.as_str());
        let Some(line) = StatusLine::of(status) else {
            return Err("a status has no line".into());
        };
        let wanted = format!(in alloc; "exsm: status {last}")?;
        assert!(rt; format!(in alloc; "{line}")?.as_str() == wanted.as_str());
    }
    Ok(())
}
