// What a word does to the places of its address, on all depths of a mark at once.
// The rules are H8's; the masks are shown to be those rules, bit by bit.
#![tactic(auto)]

ghost use Rattle.std.specs.Prelude.{◌≡◌, ◌*◌, ◌^◌, ◌≤◌};
ghost use Rattle.instruction.specs.Word.{spelled_by};
ghost use Rattle.flow.specs.Move.{move_of};
ghost use Rattle.flow.specs.Walk.{deepest};
ghost use Rattle.flow.specs.Masks.{goes_on, bare_of, held_of, deeper_of, Follows};

use instruction::{Body, Instruction, WordAddress};

#[derive(Clone, Copy)]
pub enum Move {
    Other,
    Compare,
    Jump(WordAddress),
    Enter(WordAddress),
    Leave,
    Loop(WordAddress),
}

impl Move {
    // Whether a word goes on to the next address and does nothing else: told of its op code alone.
    pub fn goes_on(word: u64) -> bool
        ensures { result ≡ goes_on word }
    {
        let code = Instruction::code_in(word);
        (code < Body::REPEAT) | (Body::RETURN < code)
    }

    // The move of a word. Five op codes have a rule of their own.
    pub fn at(word: u64) -> Move
        ensures { result ≡ move_of (spelled_by word).body }
    {
        let to = WordAddress::spelled_by(word);
        match Instruction::code_in(word) {
            Body::REPEAT => Move::Loop(to),
            Body::CMP => Move::Compare,
            Body::GOTO => Move::Jump(to),
            Body::CALL => Move::Enter(to),
            Body::RETURN => Move::Leave,
            _ => Move::Other,
        }
    }
}

// A mark: bit 2d + c of it says that its address is reached at depth d, with a condition held or not.
#[derive(Clone, Copy)]
pub struct Mark;

impl Mark {
    // One bit for each depth.
    pub const DEPTHS: u64 = 0x5555_5555_5555_5555;

    // The depths that are reached, at bit 2d.
    pub fn bare(m: u64) -> u64
        ensures { result ≡ bare_of m }
    {
        (m | (m / 2)) & Mark::DEPTHS
    }

    // The depths that are reached with a condition, at bit 2d.
    pub fn held(m: u64) -> u64
        ensures { result ≡ held_of m }
    {
        (m / 2) & Mark::DEPTHS
    }

    // The bit of a depth.
    pub fn at(depth: u64) -> u64
        requires { depth ≤ deepest }
        ensures { result ≡ 2 ^ (2 * depth) }
    {
        1u64 << (2 * depth)
    }

    // One deeper, without a condition, where the limit allows.
    pub fn deeper(m: u64, limit: u64) -> u64
        requires { limit ≤ deepest }
        ensures { result ≡ deeper_of limit m }
    {
        let below = Mark::at(limit);
        (Mark::bare(m) % below) * 4
    }
}

// What a mark leads to: the bits for the next address, and those for a target.
#[derive(Clone, Copy)]
pub struct Moves {
    pub next: u64,
    pub jump: u64,
    pub to: WordAddress,
}

impl Moves {
    // `back` has the depths at which a RETURN is marked, at bit 2d.
    pub fn of(o: Move, m: u64, back: u64, limit: u64) -> Moves
        requires { limit ≤ deepest }
        ensures { Follows limit o m back result }
    {
        match o {
            Move::Other => Moves {
                next: m,
                jump: 0,
                to: WordAddress(0),
            },
            Move::Compare => Moves {
                next: Mark::bare(m) * 2,
                jump: 0,
                to: WordAddress(0),
            },
            Move::Jump(t) => Moves {
                next: Mark::held(m),
                jump: Mark::bare(m),
                to: t,
            },
            Move::Enter(t) => Moves {
                next: Mark::held(m) | (Mark::bare(m) & (back / 4)),
                jump: Mark::deeper(m, limit),
                to: t,
            },
            Move::Leave => Moves {
                next: Mark::held(m),
                jump: 0,
                to: WordAddress(0),
            },
            Move::Loop(t) => Moves {
                next: m,
                jump: m,
                to: t,
            },
        }
    }
}
