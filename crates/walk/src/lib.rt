// The places of the walk, marked in a lent buffer; the work grows linearly with the number of words.
// Hints say which addresses are worth a visit and carry no promise: a last look at every address proves that nothing is missing.
#![tactic(auto)]

ghost use Rattle.std.specs.Prelude.{◌≤◌, ◌<◌, length};
ghost use Rattle.sequence.specs.Bounds.{word_limit};
ghost use Rattle.look.specs.Closed.{MarksFit};
ghost use Rattle.walk.specs.Loops.{Cleared, Room, NoteDone, Placed, LeapDone, CanVisit, VisitDone, TurnIs, FollowDone, UncleanIs, OpenIs, CanSettle, Settled};

use flow::{Mark, Move, Moves};
use instruction::WordAddress;
use look::{is_clean, is_closed};
use sequence::Sequence;

// Where the walk is: the hints held, the CALLs listed, the depths at which a RETURN was met, and the address at hand with its mark.
#[derive(Clone, Copy)]
pub struct Trail {
    pub hints: usize,
    pub calls: usize,
    pub back: u64,
    pub at: usize,
    pub mark: u64,
}

impl Trail {
    // What is known of an address: it is among the hints, it is among the CALLs.
    pub const HINTED: u8 = 1;

    pub const LISTED: u8 = 2;
}

// What a look finds.
#[derive(Clone, Copy)]
pub struct Look {
    pub open: usize,
    pub faulty: usize,
}

// What the walk has seen: the depths at which a RETURN is marked, and the first address that faults, or n.
#[derive(Clone, Copy)]
pub struct Seen {
    pub back: u64,
    pub faulty: WordAddress,
}

// What the walk has noted: addresses that are worth a visit, CALLs that were met, and of each address whether it is among them.
#[derive(Drop)]
struct Notes {
    hints: [u16; Sequence::WORDS as usize],
    calls: [u16; Sequence::WORDS as usize],
    known: [u8; Sequence::WORDS as usize],
}

// An address added to a list, once; how long the list is then. It may be dropped.
// The list is one of two in the notes, so this is no method of theirs.
fn add(
    list: &mut [u16; Sequence::WORDS as usize],
    known: &mut [u8; Sequence::WORDS as usize],
    bit: u8,
    len: usize,
    a: usize,
) -> usize
    requires { len ≤ word_limit }
    ensures { result ≤ word_limit }
{
    if Sequence::WORDS as usize <= a {
        return len;
    }
    if Sequence::WORDS as usize <= len {
        return len;
    }
    if known[a] & bit != 0 {
        return len;
    }
    known[a] |= bit;
    list[len] = a as u16;
    len + 1
}

// An address that was pushed or listed.
fn entry(list: &[u16], i: usize) -> usize
    ensures { result < word_limit }
{
    if list.len() <= i {
        return 0;
    }
    list[i] as usize
}

impl Notes {
    // A hint that an address is worth a visit.
    fn push(&mut self, len: usize, a: usize) -> usize
        requires { len ≤ word_limit }
        ensures { result ≤ word_limit }
    {
        add(&mut self.hints, &mut self.known, Trail::HINTED, len, a)
    }

    // A CALL, where a RETURN is met one deeper.
    fn push_call(&mut self, marks: &[u64], len: usize, a: usize, met: u64) -> usize
        requires { len ≤ word_limit }
        ensures { result ≤ word_limit }
    {
        if marks.len() <= a {
            return len;
        }
        if Mark::bare(marks[a]) & (met / 4) == 0 {
            return len;
        }
        self.push(len, a)
    }

    // The CALLs that a RETURN leads back to.
    fn push_calls(&mut self, marks: &[u64], s: Trail, met: u64) -> usize
        requires { Room s }
        ensures { result ≤ word_limit }
    {
        let mut top = s.hints;
        for i in 0..s.calls {
            let a = entry(&self.calls, i);
            top = self.push_call(marks, top, a, met);
        }
        top
    }

    // A RETURN at hand: where it is met at a new depth, the CALLs that it leads back to are worth a visit.
    fn note_return(&mut self, marks: &[u64], s: Trail) -> Trail
        requires { Room s }
        ensures { NoteDone Move.Leave s result }
    {
        let met = Mark::bare(s.mark);
        let back = s.back | met;
        if back == s.back {
            return s;
        }
        let hints = self.push_calls(marks, s, met);
        Trail { hints, back, ..s }
    }

    // A CALL at hand, to any target: it is listed, once.
    fn note_call(&mut self, s: Trail) -> Trail
        requires { Room s }
        ensures { (t : WordAddress) → NoteDone (Move.Enter t) s result }
    {
        let calls = add(
            &mut self.calls,
            &mut self.known,
            Trail::LISTED,
            s.calls,
            s.at,
        );
        Trail { calls, ..s }
    }

    // The word at hand, where it is a RETURN or a CALL.
    fn note(&mut self, marks: &[u64], s: Trail, o: Move) -> Trail
        requires { Room s }
        ensures { NoteDone o s result }
    {
        match o {
            Move::Other => s,
            Move::Compare => s,
            Move::Jump(_) => s,
            Move::Enter(_) => self.note_call(s),
            Move::Leave => self.note_return(marks, s),
            Move::Loop(_) => s,
        }
    }

    // The address of the last hint, where there is one below n.
    fn take(&mut self, n: usize, marks: &[u64], s: Trail) -> Trail
        requires { (n ≤ length marks.now) × Room s × (0 < s.hints) }
        ensures { TurnIs n marks.now s result }
    {
        let hints = s.hints - 1;
        let at = entry(&self.hints, hints);
        if n <= at {
            return Trail {
                hints,
                at: n,
                mark: 0,
                ..s
            };
        }
        self.known[at] &= Trail::LISTED;
        let mark = marks[at];
        Trail {
            hints,
            at,
            mark,
            ..s
        }
    }

    // On, where a bit was set; else to one of the hints; else to n.
    fn turn(&mut self, n: usize, marks: &[u64], s: Trail) -> Trail
        requires { (n ≤ length marks.now) × Room s }
        ensures { TurnIs n marks.now s result }
    {
        if s.mark != 0 {
            return s;
        }
        if s.hints == 0 {
            return Trail {
                hints: 0,
                at: n,
                mark: 0,
                ..s
            };
        }
        self.take(n, marks, s)
    }
}

// Bits put at an address, where it is below n: its mark where that set one, else 0.
fn put(n: usize, marks: &mut [u64], at: usize, x: u64) -> u64
    requires { n ≤ length marks.old }
    ensures { Placed n marks.old at x marks.new result }
{
    if n <= at {
        return 0;
    }
    let old = marks[at];
    let new = old | x;
    if new == old {
        return 0;
    }
    marks[at] = new;
    new
}

// Bits put at a target, where there are any: its mark where that set one, else 0.
fn put_there(n: usize, marks: &mut [u64], to: usize, x: u64) -> u64
    requires { n ≤ length marks.old }
    ensures { Placed n marks.old to x marks.new result }
{
    if x == 0 {
        return 0;
    }
    put(n, marks, to, x)
}

// Bits put at a target, with a hint where that set one.
fn leap(n: usize, marks: &mut [u64], notes: &mut Notes, len: usize, at: usize, x: u64) -> usize
    requires { (n ≤ length marks.old) × (len ≤ word_limit) }
    ensures { LeapDone n marks.old len at x marks.new result }
{
    if put_there(n, marks, at, x) == 0 {
        return len;
    }
    notes.push(len, at)
}

// All that the address at hand leads to: the target comes next where the next address has nothing new.
fn branch(words: &[u64], marks: &mut [u64], notes: &mut Notes, s: Trail, limit: u64) -> Trail
    requires { CanVisit words.now marks.old limit s }
    ensures { VisitDone limit words.now marks.old s marks.new result }
{
    let n = words.len();
    let a = s.at;
    let o = Move::at(words[a]);
    let next = a + 1;
    let t = notes.note(marks, s, o);
    let f = Moves::of(o, s.mark, t.back, limit);
    let to = f.to.0 as usize;
    let mark = put(n, marks, next, f.next);
    if mark == 0 {
        let there = put_there(n, marks, to, f.jump);
        return Trail {
            at: to,
            mark: there,
            ..t
        };
    }
    let hints = leap(n, marks, notes, t.hints, to, f.jump);
    Trail {
        hints,
        at: next,
        mark,
        ..t
    }
}

// A visit: an address where a bit was set, with its mark; a mark of 0 where none was.
fn visit(words: &[u64], marks: &mut [u64], notes: &mut Notes, s: Trail, limit: u64) -> Trail
    requires { CanVisit words.now marks.old limit s }
    ensures { VisitDone limit words.now marks.old s marks.new result }
{
    let a = s.at;
    let word = words[a];
    if !Move::goes_on(word) {
        return branch(words, marks, notes, s, limit);
    }
    let next = a + 1;
    let mark = put(words.len(), marks, next, s.mark);
    Trail {
        at: next,
        mark,
        ..s
    }
}

// From an address on, until no hint is left.
fn follow(words: &[u64], marks: &mut [u64], notes: &mut Notes, from: Trail, limit: u64) -> Trail
    requires { CanVisit words.now marks.old limit from }
    ensures { FollowDone limit words.now marks.old from marks.new result }
{
    let n = words.len();
    let mut s = from;
    // No index is counted: it ends where no hint is left.
    loop {
        let v = visit(words, marks, notes, s, limit);
        s = notes.turn(n, marks, v);
        if n <= s.at {
            return s;
        }
    }
}

// The first address that leads to what is not marked or that faults, or n.
fn first_unclean(words: &[u64], marks: &[u64], back: u64, limit: u64) -> usize
    requires { MarksFit words.now marks.now 0 limit }
    ensures { UncleanIs limit words.now back marks.now result }
{
    let n = words.len();
    for a in 0..n {
        if !is_clean(words, marks, a, back, limit) {
            return a;
        }
    }
    n
}

// A look at every address: the first that leads to what is not marked, or n; and where that is n, the first that faults, or n.
fn look_over(words: &[u64], marks: &[u64], back: u64, limit: u64) -> Look
    requires { MarksFit words.now marks.now 0 limit }
    ensures { OpenIs limit words.now back marks.now result.open result.faulty }
{
    let n = words.len();
    let faulty = first_unclean(words, marks, back, limit);
    for a in faulty..n {
        if !is_closed(words, marks, a, back, limit) {
            return Look { open: a, faulty };
        }
    }
    Look { open: n, faulty }
}

// From marks that are sound and hold the start to the least set.
fn settle(words: &[u64], marks: &mut [u64], limit: u64) -> Seen
    requires { CanSettle limit words.now marks.old }
    ensures { Settled limit words.now marks.old marks.new result.back result.faulty.0 }
{
    let mut notes = Notes {
        hints: [0; Sequence::WORDS as usize],
        calls: [0; Sequence::WORDS as usize],
        known: [0; Sequence::WORDS as usize],
    };
    let mut s = Trail {
        hints: 0,
        calls: 0,
        back: 0,
        at: 0,
        mark: 0,
    };
    let mut l = look_over(words, marks, s.back, limit);
    // No index is counted: it ends where a look finds nothing open.
    while l.open < words.len() {
        let a = l.open;
        let from = Trail {
            at: a,
            mark: marks[a],
            ..s
        };
        s = follow(words, marks, &mut notes, from, limit);
        l = look_over(words, marks, s.back, limit);
    }
    Seen {
        back: s.back,
        faulty: WordAddress(l.faulty as u64),
    }
}

// The marks of the walk.
pub fn walk(words: &[u64], marks: &mut [u64], limit: u64) -> Seen
    requires { MarksFit words.now marks.old 0 limit × (0 < length words.now) }
    ensures { Settled limit words.now marks.old marks.new result.back result.faulty.0 }
{
    marks[..words.len()].fill(0);
    marks[0] = 1;
    settle(words, marks, limit)
}
