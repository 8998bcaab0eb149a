// The top call over streams in memory.
use super::*;
use guest_script::{print, read};
use std::alloc::{AllocError, Global};
use std::test::Fail;
use vsm_base::{MemSink, MemSource, SureSink, SureSource};
use vsm_report::Counts;

// Room for the largest text of these scripts.
const ROOM: usize = 6300;

fn words(alloc: Global, command: &str) -> Result<Vec<String>, AllocError> {
    let mut words = Vec::new(alloc);
    words.push(String::from_str(alloc, command)?)?;
    Ok(words)
}

fn traced(alloc: Global, source: &mut MemSource, sink: &mut MemSink) -> Result<Status, AllocError> {
    let words = words(alloc, "trace")?;
    Ok(serve_plain(alloc, words.as_slice(), source, sink))
}

#[test]
fn an_interrupt_comes_to_each_set_of_eight_processors_and_to_no_other(
    rt: HostRuntime,
) -> Result<(), Fail> {
    let alloc = rt.alloc();
    let calls = [
        interrupted_sets::AT_LEVEL_0,
        interrupted_sets::FROM_LEVEL_1,
        interrupted_sets::AT_LEVEL_1,
    ];
    for call in calls {
        for set in 0..=255u8 {
            let script = interrupted_sets::script(alloc, &call, set)?;
            let report = interrupted_sets::report(alloc, &call, set)?;
            let mut source = MemSource::new(script, Vec::new(alloc), 4096);
            let mut sink = MemSink::new(vec![in alloc; 0; ROOM]?, Vec::new(alloc), 4096);
            let status = traced(alloc, &mut source, &mut sink)?;
            assert_eq!(rt; status, Status::Ok, "{}, set {set}", call.name);
            assert_eq!(rt; sink.taken(), report.as_slice(), "{}, set {set}", call.name);
        }
    }
    Ok(())
}

#[test]
fn each_read_that_fails_is_told_and_nothing_is_written(rt: HostRuntime) -> Result<(), Fail> {
    let alloc = rt.alloc();
    // The last read finds the end.
    let reads = cases::DENIED_STORE.script.len().div_ceil(7) as u64 + 1;
    for read in 1..=reads + 1 {
        let mut source = MemSource::new(
            cases::DENIED_STORE.script.to_vec(alloc)?,
            vec![in alloc; read]?,
            7,
        );
        let mut sink = MemSink::new(vec![in alloc; 0; ROOM]?, Vec::new(alloc), 5);
        let status = traced(alloc, &mut source, &mut sink)?;
        let expected = if read <= reads {
            Status::ReadFault
        } else {
            Status::Ok
        };
        assert_eq!(rt; status, expected, "read {read}");
        assert_eq!(rt; sink.taken().is_empty(), read <= reads, "read {read}");
    }
    Ok(())
}

#[test]
fn each_write_that_fails_is_told_and_leaves_a_front(rt: HostRuntime) -> Result<(), Fail> {
    let alloc = rt.alloc();
    let text = cases::DENIED_STORE.text;
    let writes = text.len().div_ceil(5) as u64;
    for write in 1..=writes + 1 {
        let mut source = MemSource::new(
            cases::DENIED_STORE.script.to_vec(alloc)?,
            Vec::new(alloc),
            7,
        );
        let mut sink = MemSink::new(vec![in alloc; 0; ROOM]?, vec![in alloc; write]?, 5);
        let status = traced(alloc, &mut source, &mut sink)?;
        let expected = if write <= writes {
            Status::WriteFault
        } else {
            Status::Ok
        };
        assert_eq!(rt; status, expected, "write {write}");
        let front = text.len().min(5 * (write as usize - 1));
        assert_eq!(rt; sink.taken(), &text[..front], "write {write}");
    }
    Ok(())
}

// What the words do with a source that is left as it is.
fn told(alloc: Global, words: &[&str], room: usize) -> Result<(Status, MemSink), Fail> {
    let mut source = MemSource::new(b"left".to_vec(alloc)?, vec![in alloc; 1]?, 4096);
    let mut sink = MemSink::new(vec![in alloc; 0; room]?, Vec::new(alloc), 4096);
    let mut command = Vec::new(alloc);
    for word in words {
        command.push(String::from_str(alloc, word)?)?;
    }
    let status = serve_plain(alloc, command.as_slice(), &mut source, &mut sink);
    if source.left() == b"left".as_slice() {
        return Ok((status, sink));
    }
    Err(Fail::new(format_args!("the source was read")))
}

#[test]
fn a_made_script_is_written_and_is_read_as_the_one_that_is_run(
    rt: HostRuntime,
) -> Result<(), Fail> {
    let alloc = rt.alloc();
    let (status, sink) = told(alloc, &["make", "1"], ROOM)?;
    assert_eq!(rt; status, Status::Ok);
    assert!(rt;
        sink.taken()
            .starts_with(b"vsm 1\nvps 4\npages 64\nbudget 10000\nstarted 4\n")
    );
    let script = read(alloc, sink.taken())?;
    assert_eq!(rt; print(alloc, &script)?.as_slice(), sink.taken());
    let counts = trace(alloc, &script)?.counts();
    let expected = Counts {
        marks: 30,
        granted: 8,
        denied: 4,
        rounds: 3,
    };
    assert_eq!(rt; counts, expected);
    let (status, sink) = told(alloc, &["make", "1000"], 200_000)?;
    assert_eq!(rt; status, Status::Ok);
    assert!(rt;
        sink.taken()
            .ends_with(b"schedule 0*1040 1*1040 2*1040 3*1040\nend\n")
    );
    Ok(())
}

#[test]
fn a_sure_source_and_a_sure_sink_give_the_whole_text(rt: HostRuntime) -> Result<(), Fail> {
    let alloc = rt.alloc();
    let words = words(alloc, "trace")?;
    let mut source = SureSource::new(cases::DENIED_STORE.script.to_vec(alloc)?);
    let mut sink = SureSink::new();
    let status = vsm(&rt, alloc, words.as_slice(), &mut source, &mut sink);
    assert_eq!(rt; status, Status::Ok);
    Ok(())
}
