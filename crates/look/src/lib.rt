// What a look at one address tells: whether all that it leads to is marked, and whether its word faults.
// It takes nothing for granted of the marks, so that it proves what the walk has done.
#![tactic(auto)]

ghost use Rattle.std.specs.Prelude.{◌≡◌, ◌+◌, ◌≤◌, ◌<◌, length};
ghost use Rattle.std.specs.Int.Bits.{bit_or};
ghost use Rattle.instruction.specs.Form.{told};
ghost use Rattle.sequence.specs.Numbers.{fault_number};
ghost use Rattle.flow.specs.Walk.{deepest};
ghost use Rattle.look.specs.Closed.{fault_in, MarksFit, Tells, HoldsAt, back_in, ClosedAt, CleanAt};

use flow::{Mark, Move, Moves};
use sequence::Fault;

// Whether bits are set at an address, where it is below n.
fn holds(n: usize, marks: &[u64], at: usize, x: u64) -> bool
    requires { n ≤ length marks.now }
    ensures { Tells (HoldsAt n marks.now at x) result }
{
    if n <= at {
        return true;
    }
    let old = marks[at];
    (old | x) == old
}

// Whether the next address and the target of an address hold what its moves put there.
fn both_hold(n: usize, marks: &[u64], a: usize, f: Moves) -> bool
    requires { (n ≤ length marks.now) × (a < n) }
    ensures { Tells (HoldsAt n marks.now (a + 1) f.next × HoldsAt n marks.now f.to.0 f.jump) result }
{
    let to = f.to.0 as usize;
    if !holds(n, marks, a + 1, f.next) {
        return false;
    }
    holds(n, marks, to, f.jump)
}

// Whether the depths of a RETURN are known; any other word has none to know.
fn knows(o: Move, m: u64, back: u64) -> bool
    ensures { Tells (bit_or back (back_in o m) ≡ back) result }
{
    match o {
        Move::Other => true,
        Move::Compare => true,
        Move::Jump(_) => true,
        Move::Enter(_) => true,
        Move::Leave => (back | Mark::bare(m)) == back,
        Move::Loop(_) => true,
    }
}

// Whether all that an address leads to is marked.
pub fn is_closed(words: &[u64], marks: &[u64], a: usize, back: u64, limit: u64) -> bool
    requires { MarksFit words.now marks.now 0 limit × (a < length words.now) }
    ensures { Tells (ClosedAt limit words.now back marks.now a) result }
{
    let word = words[a];
    let m = marks[a];
    let o = Move::at(word);
    let f = Moves::of(o, m, back, limit);
    knows(o, m, back) & both_hold(words.len(), marks, a, f)
}

// Whether all that an address leads to is marked, and its word does not fault.
pub fn is_clean(words: &[u64], marks: &[u64], a: usize, back: u64, limit: u64) -> bool
    requires { MarksFit words.now marks.now 0 limit × (a < length words.now) }
    ensures { Tells (CleanAt limit words.now back marks.now a) result }
{
    let n = words.len();
    let word = words[a];
    let m = marks[a];
    if Move::goes_on(word) {
        return holds(n, marks, a + 1, m);
    }
    let o = Move::at(word);
    let f = Moves::of(o, m, back, limit);
    match o {
        Move::Other => holds(n, marks, a + 1, f.next),
        Move::Compare => holds(n, marks, a + 1, f.next),
        Move::Jump(_) => both_hold(n, marks, a, f),
        Move::Enter(_) => both_hold(n, marks, a, f) & (m / Mark::at(limit) % 4 == 0),
        Move::Leave => holds(n, marks, a + 1, f.next)
            & ((back | Mark::bare(m)) == back)
            & (m % 4 == 0),
        Move::Loop(_) => both_hold(n, marks, a, f),
    }
}

// 31 or 32, of a word and its mark.
pub fn fault_of(o: Move, m: u64, limit: u64) -> Result<(), Fault>
    requires { limit ≤ deepest }
    ensures { told fault_number result ≡ fault_in limit o m }
{
    let deepest = m / Mark::at(limit) % 4;
    match o {
        Move::Other => Ok(()),
        Move::Compare => Ok(()),
        Move::Jump(_) => Ok(()),
        Move::Enter(_) => if deepest == 0 {
            Ok(())
        } else {
            Err(Fault::StackFull)
        },
        Move::Leave => if m % 4 == 0 {
            Ok(())
        } else {
            Err(Fault::StackEmpty)
        },
        Move::Loop(_) => Ok(()),
    }
}
