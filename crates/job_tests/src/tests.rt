use body::corners::corners;
use body::grid::PackedGrid;
use cut::asks::Sense;
use geometry::axis::AxisOrder;
use geometry::frame::{Frame, Point};
use geometry::refusal::Refusal;
use job::reader::{JobError, read};
use script::call::{BlockCall, Call, CutCall, MakeCall, Table};
use std::alloc::{AllocError, Global};
use std::test::Fail;
use text::problem::Problem;

// The line at fault and what is wrong there.
#[test]
fn malformed(rt: HostRuntime) {
    let jobs = [
        ("count\ncuont", 2, Problem::UnknownCommand),
        ("COUNT\n", 1, Problem::UnknownCommand),
        ("\n\n frame 2 2", 3, Problem::WordCount),
        ("frame 2 2 2 2\n", 1, Problem::WordCount),
        ("count 1\n", 1, Problem::WordCount),
        ("table corners\n", 1, Problem::WordCount),
        ("frame 2 x 2\n", 1, Problem::NotANumber),
        ("frame 2 2 +2\n", 1, Problem::NotANumber),
        ("frame 2 18446744073709551616 2", 1, Problem::NotANumber),
        ("table points 5", 1, Problem::UnknownTable),
        ("table corners 1000001", 1, Problem::TooLarge),
        ("table boxes 1000001", 1, Problem::TooLarge),
        ("count\n\nscan\n#\n", 3, Problem::NoFrame),
        ("frame 1 1 1\nframe 1 1025 1\nscan\n#", 3, Problem::NoFrame),
        ("frame 1 2 3\nscan\n...\n..", 4, Problem::RowLength),
        ("frame 1 2 3\nscan\n...\n..x", 4, Problem::RowCharacter),
        ("frame 1 2 3\nscan\n\n...\n...", 3, Problem::RowLength),
        ("frame 1 2 3\nscan\n...\n", 4, Problem::MissingLine),
        ("frame 1 1 1\ngrid 2\n1", 4, Problem::MissingLine),
        ("frame 1 1 1\ngrid 16777217\n1", 2, Problem::TooLarge),
        ("frame 1 1 1\ngrid 1\n\n1", 3, Problem::WordCount),
        ("frame 1 1 1\ngrid 1\n1 2", 3, Problem::WordCount),
        ("grid 0", 1, Problem::NoFrame),
    ];
    for (text, line, problem) in jobs {
        let error = read(rt.alloc(), text.as_bytes()).err();
        assert_eq!(rt; error, Some(JobError { line, problem }), "{}", text);
    }
}

#[test]
fn malformed_cuts(rt: HostRuntime) {
    let jobs = [
        ("cut", 1, Problem::WordCount),
        ("cut XYZ XYZ", 1, Problem::WordCount),
        ("cut xyz", 1, Problem::UnknownOrder),
        ("cut XXZ", 1, Problem::UnknownOrder),
        ("inspect XY", 1, Problem::UnknownOrder),
        ("inspect", 1, Problem::WordCount),
        ("volume 1", 1, Problem::WordCount),
        ("find 1 2", 1, Problem::WordCount),
        ("find 1 2 3 4", 1, Problem::WordCount),
        ("find 1 -2 3", 1, Problem::NotANumber),
        ("neighbour 1 C+ 0", 1, Problem::UnknownSense),
        ("neighbour 1 A+", 1, Problem::WordCount),
        ("neighbour A+ 1 0", 1, Problem::NotANumber),
        ("reopen now", 1, Problem::WordCount),
    ];
    for (text, line, problem) in jobs {
        let error = read(rt.alloc(), text.as_bytes()).err();
        assert_eq!(rt; error, Some(JobError { line, problem }), "{}", text);
    }
}

// A scan of two rows, and a grid given in words.
#[test]
fn calls(rt: HostRuntime) -> Result<(), Fail> {
    let heap = rt.alloc();
    let text =
        b"frame 1 2 3\r\n\n\ttable corners 007 \nscan\n#..\r\n.##\ngrid 2\n 5 \n18446744073709551615\ncount\ncorners";
    let expected = vec![in heap;
        Call::Make(MakeCall::Frame(1, 2, 3)),
        Call::SetTable(Table::Corners, 7),
        Call::Make(MakeCall::Grid(vec![in heap; 1, 6]?)),
        Call::Make(MakeCall::Grid(vec![in heap; 5, u64::MAX]?)),
        Call::OnBlock(BlockCall::Count),
        Call::OnBlock(BlockCall::Corners),
    ]?;
    assert_eq!(rt; read(heap, text)?, expected);
    Ok(())
}

#[test]
fn cut_calls(rt: HostRuntime) -> Result<(), Fail> {
    let heap = rt.alloc();
    let text =
        b"table boxes 6\ncut YXZ\nvolume\nfind 0 1 65536\nneighbour 2 B- 18446744073709551615\nreopen\ninspect ZYX";
    let expected = vec![in heap;
        Call::SetTable(Table::Boxes, 6),
        Call::Cut(AxisOrder::Yxz),
        Call::OnCut(CutCall::Volume),
        Call::OnCut(CutCall::Find(0, 1, 65536)),
        Call::OnCut(CutCall::Neighbour(2, Sense::BBackward, u64::MAX)),
        Call::OnCut(CutCall::Reopen),
        Call::OnBlock(BlockCall::Inspect(AxisOrder::Zyx)),
    ]?;
    assert_eq!(rt; read(heap, text)?, expected);
    Ok(())
}

// The words of a 64 x 64 x 16 grid whose solid cells have even coordinates: 8,192 cells that share no
// point, so 65,536 corners.
fn apart(heap: Global) -> Result<Vec<u64>, AllocError> {
    let mut words = Vec::new(heap);
    for x in 0..64u16 {
        for y in 0..64u16 {
            words.push(if x % 2 == 0 && y % 2 == 0 { 0x5555 } else { 0 })?;
        }
    }
    Ok(words)
}

// The largest capacity, one below it, and a longer table, which has no larger one.
#[test]
fn largest_capacity(rt: HostRuntime) -> Result<(), Fail> {
    let heap = rt.alloc();
    let words = apart(heap)?;
    let grid = PackedGrid::new(Frame::new(64, 64, 16)?, words.as_slice())?;
    assert_eq!(rt; grid.count(), 8192);
    for (length, fits) in [(65535, false), (65536, true), (70000, true)] {
        let mut table = vec![in heap; Point { x: 9, y: 9, z: 9 }; length]?;
        let answer = corners(&grid, table.as_mut_slice());
        assert_eq!(rt;
            answer,
            if fits {
                Ok(65536)
            } else {
                Err(Refusal::CornersFull)
            }
        );
    }
    Ok(())
}
