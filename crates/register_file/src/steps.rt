// What the calls of a device are made of: functions, and no methods, so that a device has no more calls than those of Device.
ghost use Rattle.std.specs.Prelude.{◌≡◌, ◌<◌, ◌≤◌, true, false, Some, MatchOption, MatchResult};
ghost use Rattle.std.specs.Option.{option_map};
ghost use Rattle.refusal.specs.declared.Refusal.TheVariants.{UnknownRegister};
ghost use Rattle.interrupt.specs.Meaning.{cpu_of, id_of};
ghost use Rattle.interrupt.specs.Sets.{some};
ghost use Rattle.list_register.specs.Calls.{active_with, clashes, ready, line_up, released, taken, ended, deactivated, Acknowledges};
ghost use Rattle.list_register.specs.Entries.{inactive, is_valid, with_state};
ghost use Rattle.list_register.specs.Meaning.{with_cpu, with_entry, with_stray};
ghost use Rattle.list_register.specs.Shown.{entry_of};
ghost use Rattle.register_file.specs.Picking.{Chosen, Prefers};

use crate::file::RegisterFile;
use crate::settings::Settings;
use interrupt::cpu_interface::{CpuInterface, EoiMode};
use interrupt::id::InterruptId;
use list_register::entry::Entry;
use list_register::state::State;
use list_register::stray::StrayCount;
use refusal::Refusal;

// The place of a register, if there is such a register.
pub fn place<F: RegisterFile>(file: &F, register: u32) -> Result<usize, Refusal>
    ensures { let m = F.RegisterFile.meaning file.now in MatchResult result (λ k. (k ≡ register) × (k < m.count)) (λ e. (m.count ≤ register) × (e ≡ UnknownRegister)) }
{
    if register >= u32::from(file.size()) {
        return Err(Refusal::UnknownRegister);
    }
    Ok(register as usize)
}

// Whether a valid register other than k has the number of this entry, which is valid too.
pub fn clashes<F: RegisterFile>(file: &F, k: usize, entry: Entry) -> bool
    ensures { result ≡ clashes k (entry_of entry) (F.RegisterFile.meaning file.now) }
{
    let number = u32::from(entry.id.number());
    entry.state.is_valid() && file.find(number).is_some_and(|j| j != k)
}

// The CPU interface becomes this one.
pub fn set_cpu<F: RegisterFile>(file: &mut F, cpu: CpuInterface)
    ensures { F.RegisterFile.meaning file.new ≡ with_cpu (cpu_of cpu) (F.RegisterFile.meaning file.old) }
{
    let settings = file.settings();
    file.set_settings(Settings { cpu, ..settings });
}

// The stray count becomes this one.
pub fn set_stray<F: RegisterFile>(file: &mut F, stray: StrayCount)
    ensures { F.RegisterFile.meaning file.new ≡ with_stray stray.count (F.RegisterFile.meaning file.old) }
{
    let settings = file.settings();
    file.set_settings(Settings { stray, ..settings });
}

// Register k goes to another state. An empty one stays empty.
fn set_state<F: RegisterFile>(file: &mut F, k: usize, state: State)
    requires within { k < (F.RegisterFile.meaning file.old).count }
    requires valid { is_valid state ≡ true → is_valid ((F.RegisterFile.meaning file.old).at k).state ≡ true }
    ensures { let m = F.RegisterFile.meaning file.old in F.RegisterFile.meaning file.new ≡ with_entry k (with_state state (m.at k)) m }
{
    file.put(k, file.entry_at(k).with_state(state));
}

// The active register with this number, if there is one.
#[tactic(auto, using(crate::proofs::Holders::active_none, crate::proofs::Holders::active_found))]
fn find_active<F: RegisterFile>(file: &F, word: u32) -> Option<usize>
    ensures { let m = F.RegisterFile.meaning file.now in MatchOption result (some m.count (active_with word m) ≡ false) (λ k. (k < m.count) × (active_with word m k ≡ true)) }
{
    let k = file.find(word)?;
    file.entry_at(k).state.is_active().then_some(k)
}

// Register k is no longer active.
fn make_inactive<F: RegisterFile>(file: &mut F, k: usize)
    requires { k < (F.RegisterFile.meaning file.old).count }
    ensures { let m = F.RegisterFile.meaning file.old in F.RegisterFile.meaning file.new ≡ with_entry k (with_state (inactive (m.at k).state) (m.at k)) m }
{
    let entry = file.entry_at(k);
    file.put(k, entry.with_state(entry.state.inactive()));
}

// A joined end's last step: the active register with this number is no longer active; if there is none, the stray count rises.
#[tactic(auto, using(crate::proofs::Holders::released_there))]
fn release<F: RegisterFile>(file: &mut F, word: u32)
    ensures { F.RegisterFile.meaning file.new ≡ released word (F.RegisterFile.meaning file.old) }
{
    match find_active(file, word) {
        Some(k) => make_inactive(file, k),
        None => {
            let mut settings = file.settings();
            settings.stray = settings.stray.risen();
            file.set_settings(settings);
        }
    }
}

// Whether any register is ready.
#[tactic(auto, using(crate::proofs::Lines::ready_chosen))]
fn any_ready<F: RegisterFile>(file: &F) -> bool
    ensures { let m = F.RegisterFile.meaning file.now in result ≡ some m.count (ready m) }
{
    file.first_ready().is_some()
}

// Register k, which is valid, becomes active, and so does its priority; its interrupt. The CPU interface is the one that the caller
// has read already, since a reading may cost a bus cycle.
fn activate<F: RegisterFile>(file: &mut F, k: usize, mut cpu: CpuInterface) -> InterruptId
    requires within { k < (F.RegisterFile.meaning file.old).count }
    requires valid { is_valid ((F.RegisterFile.meaning file.old).at k).state ≡ true }
    requires same { cpu_of cpu ≡ (F.RegisterFile.meaning file.old).cpu }
    ensures does { F.RegisterFile.meaning file.new ≡ taken k (F.RegisterFile.meaning file.old) }
    ensures number { id_of result ≡ ((F.RegisterFile.meaning file.old).at k).number }
{
    let entry = file.entry_at(k);
    cpu.active.insert(entry.priority);
    set_cpu(file, cpu);
    set_state(file, k, State::Active);
    entry.id
}

// Takes the interrupt of register k, which was chosen on a live device with this CPU interface.
fn take<F: RegisterFile>(file: &mut F, k: usize, cpu: CpuInterface) -> InterruptId
    requires live { (F.RegisterFile.meaning file.old).live ≡ true }
    requires same { cpu_of cpu ≡ (F.RegisterFile.meaning file.old).cpu }
    requires chosen { Chosen F.RegisterFile.before (F.RegisterFile.meaning file.old) (Some k) }
    ensures does { Acknowledges (F.RegisterFile.meaning file.old) (Some (id_of result)) (F.RegisterFile.meaning file.new) }
    ensures prefers { Prefers F.RegisterFile.before (F.RegisterFile.meaning file.old) (Some (id_of result)) }
{
    activate(file, k, cpu)
}

// Acknowledges: takes the interrupt of the register that is preferred, if the device is live and any is ready.
pub fn take_first<F: RegisterFile>(file: &mut F) -> Option<InterruptId>
    ensures does { Acknowledges (F.RegisterFile.meaning file.old) (option_map id_of result) (F.RegisterFile.meaning file.new) }
    ensures prefers { Prefers F.RegisterFile.before (F.RegisterFile.meaning file.old) (option_map id_of result) }
{
    let Settings { live, cpu, .. } = file.settings();
    if !live {
        return None;
    }
    let k = file.first_ready()?;
    Some(take(file, k, cpu))
}

// Whether the line is up: the device is live, and any register is ready.
pub fn line_is_up<F: RegisterFile>(file: &F) -> bool
    ensures { result ≡ line_up (F.RegisterFile.meaning file.now) }
{
    file.settings().live && any_ready(file)
}

// Ends a word: the lowest active priority leaves, if there is one and the device is live, and, if joined, the word is released.
pub fn end_word<F: RegisterFile>(file: &mut F, word: u32)
    ensures { F.RegisterFile.meaning file.new ≡ ended word (F.RegisterFile.meaning file.old) }
{
    let mut settings = file.settings();
    if !settings.live {
        return;
    }
    // that none is active is no failure
    let Some(running) = settings.cpu.active.lowest() else {
        return;
    };
    settings.cpu.active.remove(running);
    file.set_settings(settings);
    if settings.cpu.mode == EoiMode::Joined {
        release(file, word);
    }
}

// Deactivates a word: it is released, if the device is live and split.
pub fn deactivate_word<F: RegisterFile>(file: &mut F, word: u32)
    ensures { F.RegisterFile.meaning file.new ≡ deactivated word (F.RegisterFile.meaning file.old) }
{
    let settings = file.settings();
    if settings.live && settings.cpu.mode == EoiMode::Split {
        release(file, word);
    }
}
