// The bits that each op code names, worked out from the places and widths of its fields: those that reading and writing go by.
// All of it is known when the program is compiled, so what is left of it there is a table.
#![tactic(auto)]

ghost use Rattle.std.specs.Prelude.{◌≡◌};
ghost use Rattle.instruction.specs.Table.{InWord};
ghost use Rattle.named.specs.Named.{ones, payload_bits, named_bits};

use instruction::{
    Body, Comparison, EngineOp, Field, Ignored, Instruction, MarkerFields, ModulatorFields,
    Repeats, WaveformFields, WordAddress,
};

// Ones at the bits of a field.
fn ones(f: Field) -> u64
    requires { InWord f }
    ensures { result ≡ ones f }
{
    ((1 << f.width) - 1) << f.low
}

// The bits that an op code names in its payload: a row for each, its fields left to right. 13 to 15 are no codes, and name none.
pub fn payload_bits(code: u64) -> u64
    ensures { result ≡ payload_bits code }
{
    match code {
        Body::WAVEFORM => {
            ones(EngineOp::PLACE)
                + ones(WaveformFields::TA)
                + ones(WaveformFields::COUNT)
                + ones(WaveformFields::ADDRESS)
        }
        Body::MARKER => {
            ones(EngineOp::PLACE)
                + ones(MarkerFields::TRANSITION)
                + ones(MarkerFields::STATE)
                + ones(MarkerFields::COUNT)
        }
        Body::WAIT => ones(EngineOp::PLACE),
        Body::LOAD_REPEAT => ones(Repeats::PLACE),
        Body::REPEAT => ones(WordAddress::PLACE),
        Body::CMP => ones(Comparison::CODE) + ones(Comparison::MASK),
        Body::GOTO => ones(WordAddress::PLACE),
        Body::CALL => ones(WordAddress::PLACE),
        Body::RETURN => ones(Ignored::PLACE),
        Body::SYNC => ones(EngineOp::PLACE),
        Body::MODULATOR => {
            ones(ModulatorFields::OP) + ones(ModulatorFields::NCO) + ones(ModulatorFields::PAYLOAD)
        }
        Body::LOAD_CMP => ones(Ignored::PLACE),
        Body::PREFETCH => ones(WordAddress::PLACE),
        _ => 0,
    }
}

// The bits that an op code names: the header's fields but the reserved bit, and its payload's.
pub fn named_bits(code: u64) -> u64
    ensures { result ≡ named_bits code }
{
    ones(Instruction::CODE)
        + ones(Instruction::ENGINE)
        + ones(Instruction::WRITE)
        + payload_bits(code)
}
