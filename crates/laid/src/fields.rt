// What is asked for by numbers: the body that an op code and the table's fields, left to right, make.
// No name has more than four; a code that is none has NOOP's body.
ghost use Rattle.std.specs.Prelude.{◌≡◌, [], ◌∷◌};
ghost use Rattle.instruction.specs.Table.{body_of};

use instruction::{
    Body, Comparison, Ignored, MarkerFields, ModulatorFields, QuadSamples, Repeats, WaveformFields,
    WordAddress,
};

pub fn body_of(code: u64, a: u64, b: u64, c: u64, d: u64) -> Body
    ensures { result ≡ body_of code (a ∷ b ∷ c ∷ d ∷ []) }
{
    match code {
        Body::WAVEFORM => Body::Waveform(WaveformFields {
            op: a,
            ta: b,
            count: QuadSamples(c),
            address: QuadSamples(d),
        }),
        Body::MARKER => Body::Marker(MarkerFields {
            op: a,
            transition: b,
            state: c,
            count: QuadSamples(d),
        }),
        Body::WAIT => Body::Wait,
        Body::LOAD_REPEAT => Body::LoadRepeat(Repeats(a)),
        Body::REPEAT => Body::Repeat(WordAddress(a)),
        Body::CMP => Body::Cmp(Comparison { code: a, mask: b }),
        Body::GOTO => Body::Goto(WordAddress(a)),
        Body::CALL => Body::Call(WordAddress(a)),
        Body::RETURN => Body::Return(Ignored(a)),
        Body::SYNC => Body::Sync,
        Body::MODULATOR => Body::Modulator(ModulatorFields {
            op: a,
            nco: b,
            payload: c,
        }),
        Body::LOAD_CMP => Body::LoadCmp(Ignored(a)),
        Body::PREFETCH => Body::Prefetch(WordAddress(a)),
        _ => Body::Noop,
    }
}
