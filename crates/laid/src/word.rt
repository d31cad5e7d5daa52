// The word of an instruction: each field laid into its place, cut to its width.
// Fields do not meet, so what is laid is their sum.
ghost use Rattle.std.specs.Prelude.{◌≡◌, [], ◌∷◌, ◌+◌, ◌≤◌, ◌^◌};
ghost use Rattle.instruction.specs.Bits.{span, laid, laid_onto};
ghost use Rattle.instruction.specs.Table.{op_code, engine_select, write_flag, engine_op, target, repeat_count, whole_payload, payload_of, code_of, values_of};
ghost use Rattle.instruction.specs.Word.{word_of};

use instruction::{
    Body, Comparison, EngineOp, Ignored, Instruction, MarkerFields, ModulatorFields, Repeats,
    WaveformFields, WordAddress,
};

#[inline(always)]
fn waveform_onto(f: WaveformFields, sum: u64) -> u64
    requires { sum + span whole_payload ≤ 2 ^ 64 }
    ensures { result ≡ laid_onto sum (payload_of (code_of (Body.Waveform f))) (values_of (Body.Waveform f)) }
{
    sum + EngineOp::PLACE.laid(f.op)
        + WaveformFields::TA.laid(f.ta)
        + WaveformFields::COUNT.laid(f.count.0)
        + WaveformFields::ADDRESS.laid(f.address.0)
}

fn marker_onto(f: MarkerFields, sum: u64) -> u64
    requires { sum + span whole_payload ≤ 2 ^ 64 }
    ensures { result ≡ laid_onto sum (payload_of (code_of (Body.Marker f))) (values_of (Body.Marker f)) }
{
    sum + EngineOp::PLACE.laid(f.op)
        + MarkerFields::TRANSITION.laid(f.transition)
        + MarkerFields::STATE.laid(f.state)
        + MarkerFields::COUNT.laid(f.count.0)
}

fn comparison_onto(x: Comparison, sum: u64) -> u64
    requires { sum + span whole_payload ≤ 2 ^ 64 }
    ensures { result ≡ laid_onto sum (payload_of (code_of (Body.Cmp x))) (values_of (Body.Cmp x)) }
{
    sum + Comparison::CODE.laid(x.code) + Comparison::MASK.laid(x.mask)
}

fn modulator_onto(f: ModulatorFields, sum: u64) -> u64
    requires { sum + span whole_payload ≤ 2 ^ 64 }
    ensures { result ≡ laid_onto sum (payload_of (code_of (Body.Modulator f))) (values_of (Body.Modulator f)) }
{
    sum + ModulatorFields::OP.laid(f.op)
        + ModulatorFields::NCO.laid(f.nco)
        + ModulatorFields::PAYLOAD.laid(f.payload)
}

#[inline(always)]
fn body_onto(body: Body, sum: u64) -> u64
    requires { sum + span whole_payload ≤ 2 ^ 64 }
    ensures { result ≡ laid_onto sum (payload_of (code_of body)) (values_of body) }
{
    match body {
        Body::Waveform(f) => waveform_onto(f, sum),
        Body::Marker(f) => marker_onto(f, sum),
        Body::Wait => sum + EngineOp::PLACE.laid(EngineOp::WAIT_TRIGGER),
        Body::LoadRepeat(n) => sum + Repeats::PLACE.laid(n.0),
        Body::Repeat(a) => sum + WordAddress::PLACE.laid(a.0),
        Body::Cmp(x) => comparison_onto(x, sum),
        Body::Goto(a) => sum + WordAddress::PLACE.laid(a.0),
        Body::Call(a) => sum + WordAddress::PLACE.laid(a.0),
        Body::Return(p) => sum + Ignored::PLACE.laid(p.0),
        Body::Sync => sum + EngineOp::PLACE.laid(EngineOp::WAIT_SYNC),
        Body::Modulator(f) => modulator_onto(f, sum),
        Body::LoadCmp(p) => sum + Ignored::PLACE.laid(p.0),
        Body::Prefetch(a) => sum + WordAddress::PLACE.laid(a.0),
        Body::Noop => sum,
    }
}

#[inline(always)]
fn header(code: u64, engine: u64, write: u64) -> u64
    ensures { result ≡ laid_onto (laid op_code code) (engine_select ∷ write_flag ∷ []) (engine ∷ write ∷ []) }
{
    Instruction::CODE.laid(code) + Instruction::ENGINE.laid(engine) + Instruction::WRITE.laid(write)
}

// The word with each field in its place, cut to its width.
#[inline(always)]
pub fn word_of(i: Instruction) -> u64
    ensures { result ≡ word_of i }
{
    let body = i.body;
    let code = body.code();
    if code == Body::NOOP {
        return Instruction::NOOP;
    }
    body_onto(body, header(code, i.engine, i.write))
}
