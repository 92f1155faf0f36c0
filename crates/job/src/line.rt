// Lines that say a call by themselves.
ghost use Rattle.std.specs.Prelude.{◌≡◌, ℕ, ◌≤◌, List, [], IfOk, OnErr, OnOk, ◌≢◌};
ghost use Rattle.geometry.specs.declared.axis.AxisOrder.{AxisOrder as TheOrder};
ghost use Rattle.job.specs.Jobs.{Only, Order, SaysAlone, Spells, Then, Three, order_word, sense_word, table_word};
ghost use Rattle.job.specs.declared.line.Command.TheVariants as commands;
ghost use Rattle.text.specs.Texts.{words_of};

use cut::asks::Sense;
use geometry::axis::AxisOrder;
use script::call::{BlockCall, Call, CutCall, MakeCall, Table};
use text::problem::Problem;
use text::text::{next_word, number};

// The longest table.
const LONGEST_TABLE: u64 = 1_000_000;

// The commands whose lines stand alone.
#[derive(Clone, Copy)]
pub enum Command {
    Frame,
    Table,
    Count,
    Corners,
    Inspect,
    Cut,
    Volume,
    Find,
    Neighbour,
    Reopen,
}

// What a word stands for. No TryFrom here and below: it would have to stand with its type, in a crate that
// knows nothing of jobs and of what can be wrong with them. One look-up in lists of pairs would be no
// plainer: each type would still need a function, and a proof too, to say that its list follows its
// spelling.
fn table_of(word: &[u8]) -> Option<Table>
    ensures { Spells table_word result word.now }
{
    match word {
        b"corners" => Some(Table::Corners),
        b"boxes" => Some(Table::Boxes),
        _ => None,
    }
}

fn order_of(word: &[u8]) -> Option<AxisOrder>
    ensures { Spells order_word result word.now }
{
    match word {
        b"XYZ" => Some(AxisOrder::Xyz),
        b"XZY" => Some(AxisOrder::Xzy),
        b"YXZ" => Some(AxisOrder::Yxz),
        b"YZX" => Some(AxisOrder::Yzx),
        b"ZXY" => Some(AxisOrder::Zxy),
        b"ZYX" => Some(AxisOrder::Zyx),
        _ => None,
    }
}

#[tactic(auto, using(std::proofs::lemmas::Slice::Eq::text_from_reads))]
fn sense_of(word: &[u8]) -> Option<Sense>
    ensures { Spells sense_word result word.now }
{
    match word {
        b"A+" => Some(Sense::AForward),
        b"A-" => Some(Sense::ABackward),
        b"B+" => Some(Sense::BForward),
        b"B-" => Some(Sense::BBackward),
        _ => None,
    }
}

// The first word of the rest of a line, a number, and what comes behind it.
fn take_number(line: &[u8]) -> Result<(u64, &[u8]), Problem>
    ensures number { IfOk result (λ p. Then (words_of line.now) p.0 (words_of p.1.now)) }
    ensures none { OnErr result ((n : ℕ) (rest : List (List ℕ)) → Then (words_of line.now) n rest → ⊥) }
{
    let (word, rest) = next_word(line).ok_or(Problem::WordCount)?;
    let value = number(word).ok_or(Problem::NotANumber)?;
    Ok((value, rest))
}

// There is no word more.
pub(crate) fn end_line(line: &[u8]) -> Result<(), Problem>
    ensures end { OnOk result (words_of line.now ≡ []) }
    ensures more { OnErr result (words_of line.now ≢ []) }
{
    match next_word(line) {
        Some(_) => Err(Problem::WordCount),
        None => Ok(()),
    }
}

// The only word of the rest of a line, a number up to a limit.
pub(crate) fn last_number(line: &[u8], most: u64) -> Result<u64, Problem>
    ensures number { IfOk result (λ n. Only (words_of line.now) n) }
    ensures bound { IfOk result (λ n. n ≤ most) }
    ensures none { OnErr result ((n : ℕ) → n ≤ most → Only (words_of line.now) n → ⊥) }
{
    let (value, rest) = take_number(line)?;
    end_line(rest)?;
    if value <= most {
        Ok(value)
    } else {
        Err(Problem::TooLarge)
    }
}

// Three numbers and no more.
fn three_numbers(line: &[u8]) -> Result<(u64, u64, u64), Problem>
    ensures numbers { IfOk result (λ p. Three (words_of line.now) p.0 p.1 p.2) }
    ensures none { OnErr result ((x y z : ℕ) → Three (words_of line.now) x y z → ⊥) }
{
    let (x, rest) = take_number(line)?;
    let (y, rest) = take_number(rest)?;
    let z = last_number(rest, u64::MAX)?;
    Ok((x, y, z))
}

// Just an axis order.
fn last_order(line: &[u8]) -> Result<AxisOrder, Problem>
    ensures order { IfOk result (λ o. Order (words_of line.now) o) }
    ensures none { OnErr result ((o : TheOrder) → Order (words_of line.now) o → ⊥) }
{
    let (word, rest) = next_word(line).ok_or(Problem::WordCount)?;
    end_line(rest)?;
    order_of(word).ok_or(Problem::UnknownOrder)
}

// A line of a command and no more.
fn bare(line: &[u8], call: Call) -> Result<Call, Problem>
    ensures bare { IfOk result (λ c. (words_of line.now ≡ []) × (c ≡ call)) }
    ensures more { OnErr result (words_of line.now ≢ []) }
{
    end_line(line)?;
    Ok(call)
}

// The rest of a `table` line.
fn read_table(line: &[u8]) -> Result<Call, Problem>
    ensures says { IfOk result (λ c. SaysAlone commands.Table (words_of line.now) c) }
    ensures none { OnErr result ((c : Call) → SaysAlone commands.Table (words_of line.now) c → ⊥) }
{
    let (name, rest) = next_word(line).ok_or(Problem::WordCount)?;
    let length = last_number(rest, LONGEST_TABLE)?;
    let table = table_of(name).ok_or(Problem::UnknownTable)?;
    Ok(Call::SetTable(table, length as usize))
}

// The rest of a `neighbour` line.
fn read_neighbour(line: &[u8]) -> Result<Call, Problem>
    ensures says { IfOk result (λ c. SaysAlone commands.Neighbour (words_of line.now) c) }
    ensures none { OnErr result ((c : Call) → SaysAlone commands.Neighbour (words_of line.now) c → ⊥) }
{
    let (u, rest) = take_number(line)?;
    let (word, rest) = next_word(rest).ok_or(Problem::WordCount)?;
    let above = last_number(rest, u64::MAX)?;
    let sense = sense_of(word).ok_or(Problem::UnknownSense)?;
    Ok(Call::OnCut(CutCall::Neighbour(u, sense, above)))
}

// The call that a command says with the rest of its line.
pub(crate) fn read_command(command: Command, line: &[u8]) -> Result<Call, Problem>
    ensures says { IfOk result (λ c. SaysAlone command (words_of line.now) c) }
    ensures none { OnErr result ((c : Call) → SaysAlone command (words_of line.now) c → ⊥) }
{
    match command {
        Command::Frame => {
            three_numbers(line).map(|(x, y, z)| Call::Make(MakeCall::Frame(x, y, z)))
        }
        Command::Table => read_table(line),
        Command::Count => bare(line, Call::OnBlock(BlockCall::Count)),
        Command::Corners => bare(line, Call::OnBlock(BlockCall::Corners)),
        Command::Inspect => {
            last_order(line).map(|order| Call::OnBlock(BlockCall::Inspect(order)))
        }
        Command::Cut => last_order(line).map(Call::Cut),
        Command::Volume => bare(line, Call::OnCut(CutCall::Volume)),
        Command::Find => {
            three_numbers(line).map(|(x, y, z)| Call::OnCut(CutCall::Find(x, y, z)))
        }
        Command::Neighbour => read_neighbour(line),
        Command::Reopen => bare(line, Call::OnCut(CutCall::Reopen)),
    }
}
