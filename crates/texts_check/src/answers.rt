use boot_model::DepId;
use ost_types::{Bytes, Csum, FsPath, NoMemory, Text};
use repo_layout::OsName;
use script::{Answer, Command, LsRow, Reply, ScriptFault, StatusRow, read_words, write_replies};
use std::alloc::Global;
use std::test::Fail;

// The one reply of the one lane.
fn printed(alloc: Global, answer: Answer) -> Result<Bytes, NoMemory> {
    let mut lane = Vec::new(alloc);
    lane.push(Reply {
        answer,
        start: 0,
        place: 0,
        order: 0,
        taken: None,
    })?;
    let mut lanes = Vec::new(alloc);
    lanes.push(lane)?;
    write_replies(alloc, &lanes)
}

#[test]
fn prints_faults_that_no_case_has(rt: HostRuntime) -> Result<(), Fail> {
    let alloc = rt.alloc();
    let told = printed(alloc, Answer::NoMemory)?;
    assert!(&rt; told.as_slice() == b"0 0 fault NoMemory\n".as_slice());
    let path = FsPath::parse(alloc, b"/a %")?;
    let told = printed(alloc, Answer::Outside(path))?;
    assert!(&rt; told.as_slice() == b"0 0 fault Outside /a%20%25\n".as_slice());
    Ok(())
}

#[test]
fn prints_rows_that_no_case_has(rt: HostRuntime) -> Result<(), Fail> {
    let alloc = rt.alloc();
    let told = printed(alloc, Answer::Log(Vec::new(alloc)))?;
    assert!(&rt; told.as_slice() == b"0 0 ok 0\n".as_slice());
    let mut rows = Vec::new(alloc);
    rows.push(LsRow::Folder {
        uid: 0,
        gid: 4294967295,
        mode: 0o1755,
        path: FsPath::parse(alloc, b"/~")?,
    })?;
    let told = printed(alloc, Answer::Ls(rows))?;
    assert!(&rt; told.as_slice() == b"0 0 ok 1\n folder 0 4294967295 1755 /~\n".as_slice());
    Ok(())
}

fn deployment(alloc: Global, serial: u32, lane: Option<u8>) -> Result<StatusRow, Fail> {
    let os = OsName::parse(alloc, b"os1")?.ok_or("no stateroot")?;
    Ok(StatusRow {
        id: DepId {
            os,
            commit: Csum::from_bytes([0x5c; 32]),
            serial,
        },
        lane,
    })
}

#[test]
fn prints_deployments(rt: HostRuntime) -> Result<(), Fail> {
    let alloc = rt.alloc();
    let told = printed(alloc, Answer::Status(Vec::new(alloc)))?;
    assert!(&rt; told.as_slice() == b"0 0 ok 0\n".as_slice());
    let mut rows = Vec::new(alloc);
    rows.push(deployment(alloc, 0, None)?)?;
    rows.push(deployment(alloc, 3, Some(2))?)?;
    let told = printed(alloc, Answer::Status(rows))?;
    let text =
        b"0 0 ok 2\n 0 os1 5c5c5c5c5c5c5c5c5c5c5c5c5c5c5c5c5c5c5c5c5c5c5c5c5c5c5c5c5c5c5c5c.0 -\n 1 os1 5c5c5c5c5c5c5c5c5c5c5c5c5c5c5c5c5c5c5c5c5c5c5c5c5c5c5c5c5c5c5c5c.3 2\n";
    assert!(&rt; told.as_slice() == text.as_slice());
    Ok(())
}

#[test]
fn prints_prunes(rt: HostRuntime) -> Result<(), Fail> {
    let alloc = rt.alloc();
    let told = printed(
        alloc,
        Answer::Pruned {
            kept: 309,
            removed: 0,
        },
    )?;
    assert!(&rt; told.as_slice() == b"0 0 ok 309 0\n".as_slice());
    let told = printed(
        alloc,
        Answer::Pruned {
            kept: 5,
            removed: 1,
        },
    )?;
    assert!(&rt; told.as_slice() == b"0 0 ok 5 1\n".as_slice());
    Ok(())
}

fn words_of(alloc: Global, line: &[u8]) -> Result<Vec<Text>, Fail> {
    let mut words = Vec::new(alloc);
    for word in line.split(|byte| *byte == b' ') {
        words.push(Text::parse(alloc, word)?.ok_or("no text")?)?;
    }
    Ok(words)
}

fn fault_of(alloc: Global, line: &[u8]) -> Result<Option<ScriptFault>, Fail> {
    let words = words_of(alloc, line)?;
    Ok(read_words(alloc, &words).err())
}

// How many parents stay, of a prune.
fn depth_of(alloc: Global, line: &[u8]) -> Result<Option<u32>, Fail> {
    let words = words_of(alloc, line)?;
    let Ok(lanes) = read_words(alloc, &words) else {
        return Ok(None);
    };
    let Some(lane) = lanes.first() else {
        return Ok(None);
    };
    match lane.commands.first() {
        Some(Command::Prune { depth }) => Ok(Some(*depth)),
        _ => Ok(None),
    }
}

#[test]
fn reads_depths(rt: HostRuntime) -> Result<(), Fail> {
    let alloc = rt.alloc();
    let depth = depth_of(alloc, b"prune 0")?;
    assert!(&rt; depth == Some(0));
    let depth = depth_of(alloc, b"prune 4294967295")?;
    assert!(&rt; depth == Some(4294967295));
    let depth = depth_of(alloc, b"prune %31%30")?;
    assert!(&rt; depth == Some(10));
    let lines =
        b"prune|prune 1 2|prune ~|prune 00|prune 01|prune +1|prune -1|prune 1a|prune 4294967296|prune 18446744073709551616|Prune 1";
    for line in lines.split(|byte| *byte == b'|') {
        assert!(&rt; fault_of(alloc, line)? == Some(ScriptFault::BadLine(1)));
    }
    Ok(())
}

fn is_cleanup(alloc: Global, line: &[u8]) -> Result<bool, Fail> {
    let words = words_of(alloc, line)?;
    let Ok(lanes) = read_words(alloc, &words) else {
        return Ok(false);
    };
    let Some(lane) = lanes.first() else {
        return Ok(false);
    };
    Ok(matches!(lane.commands.first(), Some(Command::Cleanup)))
}

#[test]
fn reads_cleanups(rt: HostRuntime) -> Result<(), Fail> {
    let alloc = rt.alloc();
    let is = is_cleanup(alloc, b"cleanup")?;
    assert!(&rt; is);
    let lines = b"cleanup 0|cleanup ~|cleanup cleanup|clean|cleanups|Cleanup|%63leanup";
    for line in lines.split(|byte| *byte == b'|') {
        assert!(&rt; fault_of(alloc, line)? == Some(ScriptFault::BadLine(1)));
    }
    Ok(())
}

// The program says the same of these and of words that are no command's.
#[test]
fn knows_no_tree(rt: HostRuntime) -> Result<(), Fail> {
    let alloc = rt.alloc();
    let fault = fault_of(alloc, b"commit main 7 first ~ 18446744073709551615")?;
    assert!(&rt; fault == Some(ScriptFault::UnknownTree(7)));
    let lines =
        b"commit main 07 first ~ 0|commit main 7 first ~ 18446744073709551616|commit main 4294967296 first ~ 0|commit main 7 first ~|commit main 7 %00 ~ 0";
    for line in lines.split(|byte| *byte == b'|') {
        assert!(&rt; fault_of(alloc, line)? == Some(ScriptFault::BadLine(1)));
    }
    Ok(())
}
