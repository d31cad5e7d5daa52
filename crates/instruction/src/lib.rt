// The instruction: its units, its fields with their places and widths, what a word spells, and the form numbers that it alone decides.
// Reader and writer judge words and wishes by what stands here, so that both mean the same.
#![tactic(auto)]

ghost use Rattle.std.specs.Prelude.{◌≡◌, ℕ, not, ◌||◌, ◌<◌, ◌^◌, ltb, eqb};
ghost use Rattle.instruction.specs.Bits.{◌gives◌else◌, span, held, held_in, laid, fits};
ghost use Rattle.instruction.specs.Table.{InWord, engine_select, write_flag, engine_op, target, repeat_count, payload_of, code_of, waveform_of, marker_of, comparison_of, modulator_of, body_of};
ghost use Rattle.instruction.specs.Rules.{is_older};
ghost use Rattle.instruction.specs.Form.{number_of, form_numbered, form_told_apart, told, numbered, tells_bit, filled, short, one_nco, wide, body_form, form_of};
ghost use Rattle.instruction.specs.Word.{code_in, values_in, spelled_by, byte_span};

// ---- Rules: what the module is that a word is read for.

// Firmware 2.5 to 2.33 is older.
#[derive(Clone, Copy)]
pub enum Firmware {
    Current,
    Older,
}

impl Firmware {
    pub fn is_older(self) -> bool
        ensures { result ≡ is_older self }
    {
        match self {
            Firmware::Current => false,
            Firmware::Older => true,
        }
    }
}

// All that reading a word depends on beside the word.
#[derive(Clone, Copy)]
pub struct Rules {
    pub firmware: Firmware,
}

impl Rules {
    pub const CURRENT: Rules = Rules {
        firmware: Firmware::Current,
    };

    pub const OLDER: Rules = Rules {
        firmware: Firmware::Older,
    };
}

// ---- Units: samples, quad-samples and word addresses are counted apart.

#[derive(Clone, Copy)]
pub struct Samples(pub u64);

impl Samples {
    pub const PER_QUAD: u64 = 4;

    // The manual's shortest instruction.
    pub const SHORTEST: u64 = 8;
}

#[derive(Clone, Copy)]
pub struct QuadSamples(pub u64);

impl QuadSamples {
    pub const SHORTEST: u64 = Samples::SHORTEST / Samples::PER_QUAD;

    // A waveform is prefetched from a multiple of this.
    pub const PREFETCHED: u64 = 16384;

    // 16 or 0, of the count of a play.
    fn play_form(count: u64) -> Result<(), BadForm>
        ensures { told number_of result ≡ (short count gives 16 else 0) }
    {
        if count < QuadSamples::SHORTEST {
            return Err(BadForm::TooShort);
        }
        Ok(())
    }
}

#[derive(Clone, Copy)]
pub struct WordAddress(pub u64);

impl WordAddress {
    pub const PLACE: Field = Field { low: 0, width: 26 };

    // Instructions are prefetched from a multiple of this.
    pub const PREFETCHED: u64 = 128;

    pub fn spelled_by(word: u64) -> WordAddress
        ensures { result ≡ record { 0 = held word target } }
    {
        WordAddress(WordAddress::PLACE.held(word))
    }

    fn prefetch_form(self) -> Result<(), BadForm>
        ensures { (rules : Rules) → told number_of result ≡ body_form rules 0 (Body.Prefetch self) }
    {
        let address = self.0;
        if address % WordAddress::PREFETCHED != 0 {
            Err(BadForm::Askew)
        } else {
            Ok(())
        }
    }
}

// ---- Fields: where one lies in a word, and how many bits it has.

#[derive(Clone, Copy)]
pub struct Field {
    pub low: u64,
    pub width: u64,
}

impl Field {
    // How many numbers the field can hold.
    fn span(self) -> u64
        requires { InWord self }
        ensures { result ≡ span self }
    {
        1 << self.width
    }

    // The number that the field of a word holds.
    pub fn held(self, word: u64) -> u64
        requires { InWord self }
        ensures { result ≡ held word self }
    {
        (word >> self.low) % self.span()
    }

    // Whether a number is not too wide for the field.
    pub fn fits(self, v: u64) -> bool
        requires { InWord self }
        ensures { result ≡ fits self v }
    {
        v < self.span()
    }

    // A number laid into the field, cut to its width.
    pub fn laid(self, v: u64) -> u64
        requires { InWord self }
        ensures { result ≡ laid self v }
    {
        (v % self.span()) << self.low
    }
}

// The op of WAVEFORM and MARKER, and of WAIT and SYNC, whose own it is.
#[derive(Clone, Copy)]
pub struct EngineOp;

impl EngineOp {
    pub const PLACE: Field = Field { low: 46, width: 2 };

    pub const PLAY: u64 = 0;

    pub const WAIT_TRIGGER: u64 = 1;

    pub const WAIT_SYNC: u64 = 2;

    pub const PREFETCH: u64 = 3;

    pub fn held_in(word: u64) -> u64
        ensures { result ≡ held word engine_op }
    {
        EngineOp::PLACE.held(word)
    }

    // The form of WAIT or SYNC.
    fn wait_form(write: u64) -> Result<(), BadForm>
        ensures { (rules : Rules) → told number_of result ≡ body_form rules write Body.Wait }
    {
        if write == 0 {
            Err(BadForm::NoWriteFlag)
        } else {
            Ok(())
        }
    }
}

#[derive(Clone, Copy)]
pub struct WaveformFields {
    pub op: u64,
    pub ta: u64,
    pub count: QuadSamples,
    pub address: QuadSamples,
}

impl WaveformFields {
    pub const TA: Field = Field { low: 45, width: 1 };

    pub const COUNT: Field = Field { low: 24, width: 21 };

    pub const ADDRESS: Field = Field { low: 0, width: 24 };

    pub fn spelled_by(word: u64) -> WaveformFields
        ensures { result ≡ waveform_of (held_in word (payload_of (code_of (Body.Waveform result)))) }
    {
        WaveformFields {
            op: EngineOp::PLACE.held(word),
            ta: WaveformFields::TA.held(word),
            count: QuadSamples(WaveformFields::COUNT.held(word)),
            address: QuadSamples(WaveformFields::ADDRESS.held(word)),
        }
    }

    pub fn form(self) -> Result<(), BadForm>
        ensures { (rules : Rules) → told number_of result ≡ body_form rules 0 (Body.Waveform self) }
    {
        let op = self.op;
        let ta = self.ta;
        let count = self.count.0;
        let address = self.address.0;
        if op == EngineOp::PLAY {
            return QuadSamples::play_form(count);
        }
        let awaits = (op == EngineOp::WAIT_TRIGGER) | (op == EngineOp::WAIT_SYNC);
        let prefetches = op == EngineOp::PREFETCH;
        if awaits & ((ta != 0) | (count != 0) | (address != 0))
            | prefetches & ((ta != 0) | (count != 0))
        {
            return Err(BadForm::UselessField);
        }
        if prefetches & (address % QuadSamples::PREFETCHED != 0) {
            return Err(BadForm::Askew);
        }
        Ok(())
    }
}

#[derive(Clone, Copy)]
pub struct MarkerFields {
    pub op: u64,
    pub transition: u64,
    pub state: u64,
    pub count: QuadSamples,
}

impl MarkerFields {
    pub const TRANSITION: Field = Field { low: 33, width: 4 };

    pub const STATE: Field = Field { low: 32, width: 1 };

    pub const COUNT: Field = Field { low: 0, width: 32 };

    // Older firmware takes a count of 20 bits.
    pub const OLDER_COUNTS: u64 = 1 << 20;

    pub fn spelled_by(word: u64) -> MarkerFields
        ensures { result ≡ marker_of (held_in word (payload_of (code_of (Body.Marker result)))) }
    {
        MarkerFields {
            op: EngineOp::PLACE.held(word),
            transition: MarkerFields::TRANSITION.held(word),
            state: MarkerFields::STATE.held(word),
            count: QuadSamples(MarkerFields::COUNT.held(word)),
        }
    }

    // 16, 24 or 0, of the count of a play.
    fn play_form(count: u64, rules: Rules) -> Result<(), BadForm>
        ensures { told number_of result ≡ (short count gives 16 else wide rules count gives 24 else 0) }
    {
        let firmware = rules.firmware;
        if count < QuadSamples::SHORTEST {
            return Err(BadForm::TooShort);
        }
        if firmware.is_older() & !(count < MarkerFields::OLDER_COUNTS) {
            return Err(BadForm::WideCount);
        }
        Ok(())
    }

    pub fn form(self, rules: Rules) -> Result<(), BadForm>
        ensures { told number_of result ≡ body_form rules 0 (Body.Marker self) }
    {
        let op = self.op;
        let transition = self.transition;
        let state = self.state;
        let count = self.count.0;
        if op == EngineOp::PLAY {
            return MarkerFields::play_form(count, rules);
        }
        if op == EngineOp::PREFETCH {
            return Err(BadForm::NoSuchOp);
        }
        let awaits = (op == EngineOp::WAIT_TRIGGER) | (op == EngineOp::WAIT_SYNC);
        if awaits & ((transition != 0) | (state != 0) | (count != 0)) {
            return Err(BadForm::UselessField);
        }
        Ok(())
    }
}

// What LOAD_REPEAT loads.
#[derive(Clone, Copy)]
pub struct Repeats(pub u64);

impl Repeats {
    pub const PLACE: Field = Field { low: 0, width: 16 };

    pub fn spelled_by(word: u64) -> Repeats
        ensures { result ≡ record { 0 = held word repeat_count } }
    {
        Repeats(Repeats::PLACE.held(word))
    }
}

#[derive(Clone, Copy)]
pub struct Comparison {
    pub code: u64,
    pub mask: u64,
}

impl Comparison {
    pub const CODE: Field = Field { low: 8, width: 2 };

    pub const MASK: Field = Field { low: 0, width: 8 };

    pub const EQUAL: u64 = 0;

    pub const UNEQUAL: u64 = 1;

    pub const ABOVE: u64 = 2;

    pub fn spelled_by(word: u64) -> Comparison
        ensures { result ≡ comparison_of (held_in word (payload_of (code_of (Body.Cmp result)))) }
    {
        Comparison {
            code: Comparison::CODE.held(word),
            mask: Comparison::MASK.held(word),
        }
    }
}

// The payload that RETURN and LOAD_CMP ignore: read as 0, and nothing else may be asked for.
#[derive(Clone, Copy)]
pub struct Ignored(pub u64);

impl Ignored {
    pub const PLACE: Field = Field { low: 0, width: 56 };
}

#[derive(Clone, Copy)]
pub struct ModulatorFields {
    pub op: u64,
    pub nco: u64,
    pub payload: u64,
}

impl ModulatorFields {
    pub const OP: Field = Field { low: 45, width: 3 };

    pub const NCO: Field = Field { low: 40, width: 4 };

    pub const PAYLOAD: Field = Field { low: 0, width: 32 };

    pub const MODULATE: u64 = 0;

    pub const RESET_PHASE: u64 = 1;

    pub const WAIT_TRIGGER: u64 = 2;

    pub const SET_INCREMENT: u64 = 3;

    pub const WAIT_SYNC: u64 = 4;

    pub const SET_OFFSET: u64 = 5;

    pub const RESERVED: u64 = 6;

    pub const UPDATE_FRAME: u64 = 7;

    pub const FIRST_NCO: u64 = 1;

    pub const SECOND_NCO: u64 = 2;

    pub const BOTH_NCOS: u64 = 3;

    // Increment, offset and frame are UQ2.28.
    pub const PHASES: u64 = 1 << 30;

    pub fn spelled_by(word: u64) -> ModulatorFields
        ensures { result ≡ modulator_of (held_in word (payload_of (code_of (Body.Modulator result)))) }
    {
        ModulatorFields {
            op: ModulatorFields::OP.held(word),
            nco: ModulatorFields::NCO.held(word),
            payload: ModulatorFields::PAYLOAD.held(word),
        }
    }

    fn is_one(nco: u64) -> bool
        ensures { result ≡ one_nco nco }
    {
        (nco == ModulatorFields::FIRST_NCO) | (nco == ModulatorFields::SECOND_NCO)
    }

    fn modulate_form(nco: u64, count: u64) -> Result<(), BadForm>
        ensures { told number_of result ≡ (short count gives 16 else not (one_nco nco) gives 18 else 0) }
    {
        if count < QuadSamples::SHORTEST {
            return Err(BadForm::TooShort);
        }
        if !ModulatorFields::is_one(nco) {
            return Err(BadForm::WrongNco);
        }
        Ok(())
    }

    // 18 or 0, of an op that takes one NCO or both.
    fn nco_form(nco: u64) -> Result<(), BadForm>
        ensures { told number_of result ≡ (not (one_nco nco || eqb nco 3) gives 18 else 0) }
    {
        if !(ModulatorFields::is_one(nco) | (nco == ModulatorFields::BOTH_NCOS)) {
            return Err(BadForm::WrongNco);
        }
        Ok(())
    }

    fn reset_form(nco: u64, payload: u64) -> Result<(), BadForm>
        ensures { told number_of result ≡ (filled payload gives 15 else not (one_nco nco || eqb nco 3) gives 18 else 0) }
    {
        if payload != 0 {
            return Err(BadForm::UselessField);
        }
        ModulatorFields::nco_form(nco)
    }

    fn wait_form(nco: u64, payload: u64) -> Result<(), BadForm>
        ensures { told number_of result ≡ (filled nco || filled payload gives 15 else 0) }
    {
        if (nco != 0) | (payload != 0) {
            return Err(BadForm::UselessField);
        }
        Ok(())
    }

    fn phase_form(nco: u64, phase: u64) -> Result<(), BadForm>
        ensures { told number_of result ≡ (not (one_nco nco || eqb nco 3) gives 18 else not (ltb phase (2 ^ 30)) gives 19 else 0) }
    {
        ModulatorFields::nco_form(nco)?;
        if !(phase < ModulatorFields::PHASES) {
            return Err(BadForm::WidePhase);
        }
        Ok(())
    }

    pub fn form(self) -> Result<(), BadForm>
        ensures { (rules : Rules) → told number_of result ≡ body_form rules 0 (Body.Modulator self) }
    {
        let op = self.op;
        let nco = self.nco;
        let payload = self.payload;
        match op {
            ModulatorFields::MODULATE => ModulatorFields::modulate_form(nco, payload),
            ModulatorFields::RESET_PHASE => ModulatorFields::reset_form(nco, payload),
            ModulatorFields::WAIT_TRIGGER => ModulatorFields::wait_form(nco, payload),
            ModulatorFields::SET_INCREMENT => ModulatorFields::phase_form(nco, payload),
            ModulatorFields::WAIT_SYNC => ModulatorFields::wait_form(nco, payload),
            ModulatorFields::SET_OFFSET => ModulatorFields::phase_form(nco, payload),
            ModulatorFields::RESERVED => Err(BadForm::NoSuchOp),
            ModulatorFields::UPDATE_FRAME => ModulatorFields::phase_form(nco, payload),
            _ => Ok(()),
        }
    }
}

// ---- Refusals: one number each.

// What something is refused for.
pub trait Numbered {
    ghost number_of: { Self → ℕ };

    // What has a number.
    ghost numbered: { ℕ → Self };

    fn number(self) -> u64
        ensures { result ≡ number_of self };

    // No two have one number.
    ghost told_apart: { (bad : Self) → numbered (number_of bad) ≡ bad };
}

// The number of what something is refused for, 0 where it is not refused.
pub fn told<E: Numbered>(asked: Result<(), E>) -> u64
    ensures { result ≡ told E.number_of asked }
{
    match asked {
        Ok(()) => 0,
        Err(bad) => bad.number(),
    }
}

// The bit is the one that 111, 112 and 113 are given for, and 0 beside every other number.
#[derive(Clone, Copy)]
pub struct Refusal {
    pub number: u64,
    pub bit: u64,
}

impl Refusal {
    pub const NO_SUCH_CODE: u64 = 10;

    pub const NOT_ITS_OP: u64 = 12;

    pub const TOO_WIDE: u64 = 23;

    // A bit is set that is not named: the header's reserved one, one above the highest field, one in a gap.
    pub const RESERVED_BIT: u64 = 111;

    pub const BIT_ABOVE: u64 = 112;

    pub const BIT_IN_GAP: u64 = 113;

    // Told by its number alone.
    pub fn numbered(number: u64) -> Refusal
        ensures { result ≡ numbered number }
    {
        Refusal { number, bit: 0 }
    }

    pub fn tells_bit(self) -> bool
        ensures { result ≡ tells_bit self.number }
    {
        (Refusal::RESERVED_BIT <= self.number) & (self.number <= Refusal::BIT_IN_GAP)
    }
}

// What the form of an instruction is refused for.
#[derive(Clone, Copy, PartialEq, Eq)]
pub enum BadForm {
    NoWriteFlag,
    NoSuchOp,
    UselessField,
    TooShort,
    Askew,
    WrongNco,
    WidePhase,
    // Of a marker's play, for older firmware.
    WideCount,
}

impl Numbered for BadForm {
    ghost number_of = { number_of };

    ghost numbered = { form_numbered };

    ghost told_apart = { form_told_apart };

    fn number(self) -> u64 {
        match self {
            BadForm::NoWriteFlag => 13,
            BadForm::NoSuchOp => 14,
            BadForm::UselessField => 15,
            BadForm::TooShort => 16,
            BadForm::Askew => 17,
            BadForm::WrongNco => 18,
            BadForm::WidePhase => 19,
            BadForm::WideCount => 24,
        }
    }
}

// ---- The instruction.

#[derive(Clone, Copy)]
pub enum Body {
    Waveform(WaveformFields),
    Marker(MarkerFields),
    Wait,
    LoadRepeat(Repeats),
    Repeat(WordAddress),
    Cmp(Comparison),
    Goto(WordAddress),
    Call(WordAddress),
    Return(Ignored),
    Sync,
    Modulator(ModulatorFields),
    LoadCmp(Ignored),
    Prefetch(WordAddress),
    Noop,
}

#[derive(Clone, Copy)]
pub struct Instruction {
    pub engine: u64,
    pub write: u64,
    pub body: Body,
}

impl Instruction {
    // A byte as a number.
    pub fn wide(b: u8) -> u64
        ensures { (result ≡ b) × (result < byte_span) }
    {
        b as u64
    }

    // H2: the word of 64 ones.
    pub const NOOP: u64 = 0xFFFF_FFFF_FFFF_FFFF;

    pub const CODE: Field = Field { low: 60, width: 4 };

    pub const ENGINE: Field = Field { low: 58, width: 2 };

    pub const RESERVED: Field = Field { low: 57, width: 1 };

    pub const WRITE: Field = Field { low: 56, width: 1 };

    pub const BITS: u64 = 64;

    // The bytes of a word that is handed over raw, and the values of a byte.
    pub const BYTES: u64 = 8;

    pub const BYTE_SPAN: u64 = 256;

    pub fn code_in(word: u64) -> u64
        ensures { result ≡ code_in word }
    {
        Instruction::CODE.held(word)
    }

    pub fn engine_in(word: u64) -> u64
        ensures { result ≡ held word engine_select }
    {
        Instruction::ENGINE.held(word)
    }

    pub fn write_in(word: u64) -> u64
        ensures { result ≡ held word write_flag }
    {
        Instruction::WRITE.held(word)
    }

    // The instruction that the fields of a word spell, whatever else is wrong with the word.
    pub fn spelled_by(word: u64) -> Instruction
        ensures { result ≡ spelled_by word }
    {
        Instruction {
            engine: Instruction::engine_in(word),
            write: Instruction::write_in(word),
            body: Body::spelled_by(Instruction::code_in(word), word),
        }
    }

    // The form number of the instruction that the fields of a word spell.
    pub fn form_in(word: u64, rules: Rules) -> Result<(), BadForm>
        ensures { told number_of result ≡ form_of rules (spelled_by word) }
    {
        Instruction::spelled_by(word).form(rules)
    }

    // The form number 13 to 19 or 24, or 0. Put into its callers: measured, as a call it costs the writer a third.
    #[inline(always)]
    pub fn form(self, rules: Rules) -> Result<(), BadForm>
        ensures { told number_of result ≡ form_of rules self }
    {
        let body = self.body;
        body.form(self.write, rules)
    }
}

impl Body {
    pub const WAVEFORM: u64 = 0;

    pub const MARKER: u64 = 1;

    pub const WAIT: u64 = 2;

    pub const LOAD_REPEAT: u64 = 3;

    pub const REPEAT: u64 = 4;

    pub const CMP: u64 = 5;

    pub const GOTO: u64 = 6;

    pub const CALL: u64 = 7;

    pub const RETURN: u64 = 8;

    pub const SYNC: u64 = 9;

    pub const MODULATOR: u64 = 10;

    pub const LOAD_CMP: u64 = 11;

    pub const PREFETCH: u64 = 12;

    // NOOP has none of its own.
    pub const NOOP: u64 = 15;

    pub fn code(self) -> u64
        ensures { result ≡ code_of self }
    {
        match self {
            Body::Waveform(_) => Body::WAVEFORM,
            Body::Marker(_) => Body::MARKER,
            Body::Wait => Body::WAIT,
            Body::LoadRepeat(_) => Body::LOAD_REPEAT,
            Body::Repeat(_) => Body::REPEAT,
            Body::Cmp(_) => Body::CMP,
            Body::Goto(_) => Body::GOTO,
            Body::Call(_) => Body::CALL,
            Body::Return(_) => Body::RETURN,
            Body::Sync => Body::SYNC,
            Body::Modulator(_) => Body::MODULATOR,
            Body::LoadCmp(_) => Body::LOAD_CMP,
            Body::Prefetch(_) => Body::PREFETCH,
            Body::Noop => Body::NOOP,
        }
    }

    fn spelled_by(code: u64, word: u64) -> Body
        ensures { result ≡ body_of code (values_in code word) }
    {
        match code {
            Body::WAVEFORM => Body::Waveform(WaveformFields::spelled_by(word)),
            Body::MARKER => Body::Marker(MarkerFields::spelled_by(word)),
            Body::WAIT => Body::Wait,
            Body::LOAD_REPEAT => Body::LoadRepeat(Repeats::spelled_by(word)),
            Body::REPEAT => Body::Repeat(WordAddress::spelled_by(word)),
            Body::CMP => Body::Cmp(Comparison::spelled_by(word)),
            Body::GOTO => Body::Goto(WordAddress::spelled_by(word)),
            Body::CALL => Body::Call(WordAddress::spelled_by(word)),
            Body::RETURN => Body::Return(Ignored(0)),
            Body::SYNC => Body::Sync,
            Body::MODULATOR => Body::Modulator(ModulatorFields::spelled_by(word)),
            Body::LOAD_CMP => Body::LoadCmp(Ignored(0)),
            Body::PREFETCH => Body::Prefetch(WordAddress::spelled_by(word)),
            _ => Body::Noop,
        }
    }

    #[inline(always)]
    fn form(self, write: u64, rules: Rules) -> Result<(), BadForm>
        ensures { told number_of result ≡ body_form rules write self }
    {
        match self {
            Body::Waveform(f) => f.form(),
            Body::Marker(f) => f.form(rules),
            Body::Wait => EngineOp::wait_form(write),
            Body::LoadRepeat(_) => Ok(()),
            Body::Repeat(_) => Ok(()),
            Body::Cmp(_) => Ok(()),
            Body::Goto(_) => Ok(()),
            Body::Call(_) => Ok(()),
            Body::Return(_) => Ok(()),
            Body::Sync => EngineOp::wait_form(write),
            Body::Modulator(f) => f.form(),
            Body::LoadCmp(_) => Ok(()),
            Body::Prefetch(a) => a.prefetch_form(),
            Body::Noop => Ok(()),
        }
    }
}
