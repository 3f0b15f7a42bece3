// The refusals of each kind of event, in 01's order.
ghost use Rattle.std.specs.Prelude.{ℕ, ◌≡◌, not, cond, List, length, eqb, ltb};
ghost use Rattle.rules.specs.Numbered.{outcome_number};
ghost use Rattle.rules.specs.Record.{depth, sound, state_of};
ghost use Rattle.rules.specs.Registers.{is_offset};
ghost use Rattle.rules.specs.Refusals.{setting_refusal, ends_nothing, too_short, refusal};
ghost use Rattle.rules.specs.declared.Board.{Board};
ghost use Rattle.rules.specs.declared.Event.TheVariants.{PowerUp as power_up};
ghost use Rattle.rules.specs.Own.{own_write, own_number};
ghost use Rattle.rules.specs.Laws.Refusals.{Ordinary};

use record::{code_in_range, depth, depth_of, firmware_in_range, fitted_in_range};
use rules::{Board, Core, Event, Refusal, Settings, Signal};
use soundness::is_sound;

// 02: "1 now means the fitted code only; 14 range, 15 filter, 16 kit, 17 firmware; checked in that order".
#[tactic(auto, using(rules::proofs::Equal::told_true, rules::proofs::Equal::told_false), unfolding(rules::specs::Numbered::refusal_number, rules::specs::Refusals::setting_refusal, rules::specs::Refusals::setting_rows, rules::specs::Refusals::first_of))]
pub(crate) fn judge_settings(x: Settings) -> Result<(), Refusal>
    ensures { outcome_number result ≡ setting_refusal x }
{
    if !fitted_in_range(x.fitted) {
        return Err(Refusal::FittedCode);
    }
    if !code_in_range(x.range) {
        return Err(Refusal::RangeCode);
    }
    if !code_in_range(x.filter) {
        return Err(Refusal::FilterCode);
    }
    if !code_in_range(x.kit) {
        return Err(Refusal::KitCode);
    }
    if !firmware_in_range(x.firmware) {
        return Err(Refusal::Firmware);
    }
    Ok(())
}

// "offset other than 00, 04, 08, 0C, 10, 14, 18, 1C (hex)" is what this denies.
#[tactic(auto, unfolding(rules::specs::Registers::is_offset, rules::specs::Registers::registers, rules::specs::Bits::some))]
pub(crate) fn is_offset(o: u32) -> bool
    ensures { result ≡ is_offset o }
{
    matches!(o, 0x00 | 0x04 | 0x08 | 0x0C | 0x10 | 0x14 | 0x18 | 0x1C)
}

// "calibration end while none runs, or settled while not settling"
#[tactic(auto, unfolding(rules::specs::Refusals::ends_nothing))]
pub(crate) fn ends_nothing(c: Core, x: Signal) -> bool
    ensures { result ≡ ends_nothing c x }
{
    match x {
        Signal::Passed | Signal::Failed => !c.calibration.running,
        Signal::Settled => !c.clock.settling,
        _ => false,
    }
}

// "sample memory shorter than the depth"
#[tactic(auto, unfolding(rules::specs::Numbered::refusal_number))]
pub(crate) fn judge_memory(len: usize, depth: u32) -> Result<(), Refusal>
    ensures { outcome_number result ≡ cond (ltb len depth) 2 0 }
{
    if len < depth as usize {
        return Err(Refusal::ShortMemory);
    }
    Ok(())
}

// The settings, then the memory. The depth is reckoned only of a fitted code in range.
pub(crate) fn judge_power_up(x: Settings, len: usize) -> Result<(), Refusal>
    ensures { (b : Board) (m : List ℕ) → length m ≡ len → outcome_number result ≡ refusal (state_of b m) (power_up x) }
{
    judge_settings(x)?;
    judge_memory(len, depth_of(x.fitted))
}

// An unsound record, then a short memory.
pub(crate) fn judge_record(b: Board, len: usize) -> Result<(), Refusal>
    ensures { (m : List ℕ) → length m ≡ len → (n : ℕ) → cond (not (sound b)) 3 (cond (too_short m (depth b)) 2 n) ≡ cond (eqb (outcome_number result) 0) n (outcome_number result) }
{
    if !is_sound(b) {
        return Err(Refusal::Unsound);
    }
    judge_memory(len, depth(b))
}

// A write: no such register, then a read-only one, then a calibration that runs.
#[tactic(auto, unfolding(rules::specs::Numbered::refusal_number, rules::specs::Own::own_write))]
pub(crate) fn judge_write(c: Core, o: u32) -> Result<(), Refusal>
    ensures { outcome_number result ≡ own_write c o }
{
    judge_read(o)?;
    if matches!(o, 0x10 | 0x14) {
        return Err(Refusal::ReadOnly);
    }
    if c.calibration.running {
        return Err(Refusal::Calibrating);
    }
    Ok(())
}

// A read: no such register.
#[tactic(auto, unfolding(rules::specs::Numbered::refusal_number))]
pub(crate) fn judge_read(o: u32) -> Result<(), Refusal>
    ensures { outcome_number result ≡ cond (not (is_offset o)) 4 0 }
{
    if !is_offset(o) {
        return Err(Refusal::NoRegister);
    }
    Ok(())
}

// A signal: nothing runs that it could end.
#[tactic(auto, unfolding(rules::specs::Numbered::refusal_number))]
pub(crate) fn judge_signal(c: Core, x: Signal) -> Result<(), Refusal>
    ensures { outcome_number result ≡ cond (ends_nothing c x) 7 0 }
{
    if ends_nothing(c, x) {
        return Err(Refusal::NothingEnds);
    }
    Ok(())
}

// An event's own refusals, once the record is sound and the memory long enough.
#[tactic(auto, unfolding(rules::specs::Own::own_number))]
pub(crate) fn judge_own(c: Core, e: Event) -> Result<(), Refusal>
    ensures { outcome_number result ≡ own_number c e }
{
    match e {
        Event::PowerUp(_) => Ok(()),
        Event::Write { offset, .. } => judge_write(c, offset),
        Event::Read { offset } => judge_read(offset),
        Event::Signal(x) => judge_signal(c, x),
    }
}

// An event that is no power-up.
pub(crate) fn judge_ordinary(b: Board, len: usize, e: Event) -> Result<(), Refusal>
    ensures { (m : List ℕ) → length m ≡ len → Ordinary e → outcome_number result ≡ refusal (state_of b m) e }
{
    judge_record(b, len)?;
    judge_own(b.core, e)
}
