// Reading a job: its text into calls.
ghost use Rattle.std.specs.Prelude.{◌≡◌, ℕ, ◌+◌, ◌≤◌, List, [], ◌∷◌, map, length, take, drop, IfSome, IfNone, IfOk, IfErr, Some, None as Absent, vec_len, codes, Option, OnErr, OnOk};
ghost use Rattle.geometry.specs.Frames.{sides};
ghost use Rattle.job.specs.Jobs.{Later, Numbers, Reads, Rows, ReadsKeyword, Says, SoFar, command_word, force, frame_after, keyword_word, left};
ghost use Rattle.job.specs.Lines.{NoLine, Readable};
ghost use Rattle.job.specs.Plain.{Reads as ReadsPlainly};
ghost use Rattle.job.specs.Errors.{error_message};
ghost use Rattle.script.specs.Plain.{PlainCall, call_of};
ghost use Rattle.text.specs.Problems.{Fault};
ghost use Rattle.text.specs.Scans.{row_cells};
ghost use Rattle.text.specs.Texts.{lines_of, words_of};
ghost use Rattle.std.specs.List.{flat_map};
ghost use Rattle.std.specs.Option.{option_map};
ghost use Rattle.geometry.specs.declared.axis.Axis.{Axis as TheAxis};
ghost use Rattle.job.specs.declared.reader.Keyword.TheVariants as keywords;
ghost use Rattle.script.specs.declared.call.Call.TheVariants.{Make};

use crate::line::{Command, end_line, last_number, read_command};
use body::grid::rows;
use geometry::axis::Axis;
use geometry::frame::Frame;
use script::call::{Call, MakeCall};
use std::alloc::Global;
use std::fmt;
use text::problem::Problem;
use text::scan::{pack, push_row};
use text::text::{Text, next_word};

// The most words that a grid may be given.
const MOST_WORDS: u64 = 16_777_216;

// What is wrong with a job, and in which line, counted from 1. A line that is missing is one past
// the last.
#[derive(Clone, Copy, PartialEq, Eq, Debug)]
pub struct JobError {
    pub line: usize,
    pub problem: Problem,
}

impl fmt::Display for JobError {
    ghost output = { λ e. Some (error_message e) };

    fn fmt<W: fmt::Write>(&self, f: &mut fmt::Formatter<W>) -> fmt::Result {
        let line = self.line;
        let problem = self.problem;
        write!(f, "line {line}: {problem}")
    }
}

// The words that begin a line: those of a scan and of a grid have lines behind them that belong to
// them, the others stand alone.
#[derive(Clone, Copy)]
pub enum Keyword {
    Scan,
    Grid,
    Alone(Command),
}

impl TryFrom<&[u8]> for Keyword {
    type Error = Problem;

    ghost try_from_gives = { λ w. ReadsKeyword w.now };

    fn try_from(word: &[u8]) -> Result<Keyword, Problem> {
        match word {
            b"scan" => Ok(Keyword::Scan),
            b"grid" => Ok(Keyword::Grid),
            b"frame" => Ok(Keyword::Alone(Command::Frame)),
            b"table" => Ok(Keyword::Alone(Command::Table)),
            b"count" => Ok(Keyword::Alone(Command::Count)),
            b"corners" => Ok(Keyword::Alone(Command::Corners)),
            b"inspect" => Ok(Keyword::Alone(Command::Inspect)),
            b"cut" => Ok(Keyword::Alone(Command::Cut)),
            b"volume" => Ok(Keyword::Alone(Command::Volume)),
            b"find" => Ok(Keyword::Alone(Command::Find)),
            b"neighbour" => Ok(Keyword::Alone(Command::Neighbour)),
            b"reopen" => Ok(Keyword::Alone(Command::Reopen)),
            _ => Err(Problem::UnknownCommand),
        }
    }
}

// The frame in force after a frame or a block is made.
fn frame_made(frame: Option<Frame>, call: &MakeCall) -> Option<Frame>
    ensures { option_map sides result ≡ frame_after (option_map sides frame) (Make call.now) }
{
    match call {
        MakeCall::Frame(x, y, z) => Frame::new(*x, *y, *z).ok(),
        MakeCall::Grid(_) => frame,
    }
}

// The frame in force after a call.
fn frame_after(frame: Option<Frame>, call: &Call) -> Option<Frame>
    ensures { option_map sides result ≡ frame_after (option_map sides frame) call.now }
{
    match call {
        Call::Make(make) => frame_made(frame, make),
        _ => frame,
    }
}

// The next line, which has to be there.
fn need_line<'a>(text: &mut Text<'a>) -> Result<&'a [u8], Problem>
    ensures later { Later text.old text.new }
    ensures line { IfOk result (λ l. left text.old ≡ l.now ∷ left text.new) }
    ensures none { OnErr result (left text.old ≡ []) }
{
    text.next_line().ok_or(Problem::MissingLine)
}

// The cells of the next lines, a row each.
fn read_rows(heap: Global, text: &mut Text, rows: usize, side: usize) -> Result<Vec<bool>, Problem>
    ensures later { Later text.old text.new }
    ensures rows { OnOk result (Rows rows side (left text.old)) }
    ensures cells { IfOk result (λ v. v.items ≡ flat_map row_cells (take rows (left text.old))) }
    ensures left { OnOk result (left text.new ≡ drop rows (left text.old)) }
    ensures none { IfErr result (λ e. Fault e → Rows rows side (left text.old) → ⊥) }
{
    let mut cells = Vec::new(heap);
    for _ in 0..rows {
        let row = need_line(text)?;
        if row.len() != side {
            return Err(Problem::RowLength);
        }
        push_row(&mut cells, row)?;
    }
    Ok(cells)
}

// The numbers of the next lines, one in each. Not one function with `read_rows` that takes a closure: a
// row puts many cells where a line puts one number, so its clauses would tell of a list that the
// closure's calls change one after another, and both callers would have to take that apart again.
fn read_words(heap: Global, text: &mut Text, count: usize) -> Result<Vec<u64>, Problem>
    ensures later { Later text.old text.new }
    ensures len { IfOk result (λ v. vec_len v ≡ count) }
    ensures numbers { IfOk result (λ v. Numbers v.items (left text.old)) }
    ensures left { OnOk result (left text.new ≡ drop count (left text.old)) }
    ensures none { IfErr result (λ e. Fault e → (ns : List ℕ) → length ns ≡ count → Numbers ns (left text.old) → ⊥) }
{
    let mut words = Vec::new(heap);
    for _ in 0..count {
        let line = need_line(text)?;
        words.push(last_number(line, u64::MAX)?)?;
    }
    Ok(words)
}

// What is left of the text, the frame in force, and where the calls get memory.
#[derive(Clone, Copy)]
struct Reader<'a> {
    heap: Global,
    text: Text<'a>,
    frame: Option<Frame>,
}

impl<'a> Reader<'a> {
    fn read_alone(&mut self, command: Command, line: &[u8]) -> Result<Call, Problem>
        ensures text { self.new.text ≡ self.old.text }
        ensures says { IfOk result (λ k. Says (force self.old) (command_word command ∷ words_of line.now) (left self.old.text) k (force self.new) (left self.new.text)) }
        ensures none { OnErr result (NoLine (keywords.Alone command) (force self.old) (words_of line.now) (left self.old.text)) }
    {
        let call = read_command(command, line)?;
        self.frame = frame_after(self.frame, &call);
        Ok(call)
    }

    fn read_scan(&mut self, line: &[u8]) -> Result<Call, Problem>
        ensures later { Later self.old.text self.new.text }
        ensures says { IfOk result (λ k. Says (force self.old) (codes "scan" ∷ words_of line.now) (left self.old.text) k (force self.new) (left self.new.text)) }
        ensures none { IfErr result (λ e. Fault e → NoLine keywords.Scan (force self.old) (words_of line.now) (left self.old.text)) }
    {
        end_line(line)?;
        let frame = self.frame.ok_or(Problem::NoFrame)?;
        let side = usize::from(frame.side(Axis::Z));
        let cells = read_rows(self.heap, &mut self.text, rows(frame), side)?;
        Ok(Call::Make(MakeCall::Grid(pack(self.heap, frame, cells.as_slice())?)))
    }

    fn read_grid(&mut self, line: &[u8]) -> Result<Call, Problem>
        ensures later { Later self.old.text self.new.text }
        ensures says { IfOk result (λ k. Says (force self.old) (codes "grid" ∷ words_of line.now) (left self.old.text) k (force self.new) (left self.new.text)) }
        ensures none { IfErr result (λ e. Fault e → NoLine keywords.Grid (force self.old) (words_of line.now) (left self.old.text)) }
    {
        let count = last_number(line, MOST_WORDS)?;
        self.frame.ok_or(Problem::NoFrame)?;
        Ok(Call::Make(MakeCall::Grid(read_words(self.heap, &mut self.text, count as usize)?)))
    }

    // The call that a keyword says with the rest of its line and the lines that belong to it.
    fn read_keyword(&mut self, keyword: Keyword, line: &[u8]) -> Result<Call, Problem>
        ensures later { Later self.old.text self.new.text }
        ensures says { IfOk result (λ k. Says (force self.old) (keyword_word keyword ∷ words_of line.now) (left self.old.text) k (force self.new) (left self.new.text)) }
        ensures none { IfErr result (λ e. Fault e → NoLine keyword (force self.old) (words_of line.now) (left self.old.text)) }
    {
        match keyword {
            Keyword::Scan => self.read_scan(line),
            Keyword::Grid => self.read_grid(line),
            Keyword::Alone(command) => self.read_alone(command, line),
        }
    }

    // The call that a line says, with the lines that belong to it, or none of a blank line.
    fn read_call(&mut self, line: &[u8]) -> Result<Option<Call>, Problem>
        ensures later { Later self.old.text self.new.text }
        ensures blank { IfOk result (λ o. IfNone o ((words_of line.now ≡ []) × (self.new ≡ self.old))) }
        ensures says { IfOk result (λ o. IfSome o (λ k. Says (force self.old) (words_of line.now) (left self.old.text) k (force self.new) (left self.new.text))) }
        ensures none { IfErr result (λ e. Fault e → Readable (force self.old) (line.now ∷ left self.old.text) → ⊥) }
    {
        let Some((name, rest)) = next_word(line) else {
            return Ok(None);
        };
        let keyword = Keyword::try_from(name)?;
        self.read_keyword(keyword, rest).map(Some)
    }

    // Puts the call of a line, if it says one, behind the others.
    fn read_line(&mut self, calls: &mut Vec<Call>, line: &[u8]) -> Result<(), Problem>
        ensures later { Later self.old.text self.new.text }
        ensures reads { OnOk result ((s : Option (TheAxis → ℕ)) (lines : List (List ℕ)) → SoFar s lines calls.old.items (force self.old) (line.now ∷ left self.old.text) → SoFar s lines calls.new.items (force self.new) (left self.new.text)) }
        ensures on { OnOk result (Readable (force self.old) (line.now ∷ left self.old.text) → Readable (force self.new) (left self.new.text)) }
        ensures none { IfErr result (λ e. Fault e → Readable (force self.old) (line.now ∷ left self.old.text) → ⊥) }
    {
        if let Some(call) = self.read_call(line)? {
            calls.push(call)?;
        }
        Ok(())
    }

    // A problem with its line: the last one taken, or the one after it where that is missing.
    fn fault(&self, problem: Problem) -> JobError
        ensures line { (self.now.text.taken ≤ result.line) × (result.line ≤ self.now.text.taken + 1) }
        ensures problem { result.problem ≡ problem }
    {
        let missing = usize::from(problem == Problem::MissingLine);
        JobError {
            line: self.text.taken.saturating_add(missing),
            problem,
        }
    }
}

// The calls of a job, in order, as its lines say them; or what is wrong with it, and where.
pub fn read(heap: Global, text: &[u8]) -> Result<Vec<Call>, JobError>
    ensures reads { IfOk result (λ v. Reads Absent (lines_of text.now) v.items) }
    ensures line { IfErr result (λ e. (1 ≤ e.line) × (e.line ≤ length (lines_of text.now) + 1)) }
    ensures malformed { IfErr result (λ e. Fault e.problem → (calls : List Call) → Reads Absent (lines_of text.now) calls → ⊥) }
    ensures plain_reads { IfOk result (λ v. (cs : List PlainCall) → v.items ≡ map call_of cs → ReadsPlainly Absent (lines_of text.now) cs) }
    ensures plain_only { IfOk result (λ v. (cs : List PlainCall) → ReadsPlainly Absent (lines_of text.now) cs → (ds : List PlainCall) × (v.items ≡ map call_of ds)) }
    ensures plain_malformed { IfErr result (λ e. Fault e.problem → (cs : List PlainCall) → ReadsPlainly Absent (lines_of text.now) cs → ⊥) }
{
    let mut reader = Reader {
        heap,
        text: Text::new(text),
        frame: None,
    };
    let mut calls = Vec::new(heap);
    while let Some(line) = reader.text.next_line() {
        if let Err(problem) = reader.read_line(&mut calls, line) {
            return Err(reader.fault(problem));
        }
    }
    Ok(calls)
}
