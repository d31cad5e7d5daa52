// What is asked for against the widths of its fields: 23 is given for a field too wide for its bits.
// Of what RETURN and LOAD_CMP ignore nothing but zero may be asked for.
ghost use Rattle.std.specs.Prelude.{◌≡◌, [], ◌∷◌};
ghost use Rattle.instruction.specs.Bits.{all_fit};
ghost use Rattle.instruction.specs.Table.{engine_select, write_flag, target};
ghost use Rattle.instruction.specs.Word.{body_fits, fits_of};

use instruction::{
    Body, Comparison, EngineOp, Instruction, MarkerFields, ModulatorFields, Repeats,
    WaveformFields, WordAddress,
};

fn address_fits(a: WordAddress) -> bool
    ensures { result ≡ all_fit (target ∷ []) (a.0 ∷ []) }
{
    WordAddress::PLACE.fits(a.0)
}

pub fn waveform_fits(f: WaveformFields) -> bool
    ensures { result ≡ body_fits (Body.Waveform f) }
{
    EngineOp::PLACE.fits(f.op)
        & WaveformFields::TA.fits(f.ta)
        & WaveformFields::COUNT.fits(f.count.0)
        & WaveformFields::ADDRESS.fits(f.address.0)
}

fn marker_fits(f: MarkerFields) -> bool
    ensures { result ≡ body_fits (Body.Marker f) }
{
    EngineOp::PLACE.fits(f.op)
        & MarkerFields::TRANSITION.fits(f.transition)
        & MarkerFields::STATE.fits(f.state)
        & MarkerFields::COUNT.fits(f.count.0)
}

fn comparison_fits(x: Comparison) -> bool
    ensures { result ≡ body_fits (Body.Cmp x) }
{
    Comparison::CODE.fits(x.code) & Comparison::MASK.fits(x.mask)
}

fn modulator_fits(f: ModulatorFields) -> bool
    ensures { result ≡ body_fits (Body.Modulator f) }
{
    ModulatorFields::OP.fits(f.op)
        & ModulatorFields::NCO.fits(f.nco)
        & ModulatorFields::PAYLOAD.fits(f.payload)
}

fn body_fits(body: Body) -> bool
    ensures { result ≡ body_fits body }
{
    match body {
        Body::Waveform(f) => waveform_fits(f),
        Body::Marker(f) => marker_fits(f),
        Body::Wait => true,
        Body::LoadRepeat(n) => Repeats::PLACE.fits(n.0),
        Body::Repeat(a) => address_fits(a),
        Body::Cmp(x) => comparison_fits(x),
        Body::Goto(a) => address_fits(a),
        Body::Call(a) => address_fits(a),
        Body::Return(p) => p.0 == 0,
        Body::Sync => true,
        Body::Modulator(f) => modulator_fits(f),
        Body::LoadCmp(p) => p.0 == 0,
        Body::Prefetch(a) => address_fits(a),
        Body::Noop => true,
    }
}

// Engine select and write flag are not too wide.
pub fn header_fits(engine: u64, write: u64) -> bool
    ensures { result ≡ all_fit (engine_select ∷ write_flag ∷ []) (engine ∷ write ∷ []) }
{
    Instruction::ENGINE.fits(engine) & Instruction::WRITE.fits(write)
}

// Nothing is asked that 23 is given for.
pub fn fits(i: Instruction) -> bool
    ensures { result ≡ fits_of i }
{
    let body = i.body;
    let code = body.code();
    let engine = i.engine;
    let write = i.write;
    if code == Body::NOOP {
        return (engine == 0) & (write == 0);
    }
    header_fits(engine, write) & body_fits(body)
}
