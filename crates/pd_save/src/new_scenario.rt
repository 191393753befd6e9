//! A scenario to begin with, as a text that reads as one.

ghost use Rattle.std.specs.Prelude.{◌≡◌, ◌≤◌, Ok, Err, OnOk, IfOk};
ghost use Rattle.pd_save.specs.NewFile.{new_file};
ghost use Rattle.pd_save.specs.Files.{IsRead, IsNotRead};
ghost use Rattle.pd_save.specs.declared.saved.SaveFault.TheVariants.{Memory as memory, Differs as differs};

use crate::new_file::push_new_file;
use crate::saved::SaveFault;
use pd_scenario_text::{ScenarioFault, scenario_from_text};
use std::alloc::Global;

/// Whether a text reads as a scenario of N ports.
fn check_for<const N: usize>(alloc: Global, text: &[u8]) -> Result<(), SaveFault>
    requires from_one { 1 ≤ N }
    requires to_eight { N ≤ 8 }
    ensures read { OnOk result (IsRead N text.now) }
    ensures differs { result ≡ Err differs → IsNotRead N text.now }
{
    match scenario_from_text::<N>(alloc, text) {
        Ok(_) => Ok(()),
        Err(ScenarioFault::Memory) => Err(SaveFault::Memory),
        Err(_) => Err(SaveFault::Differs),
    }
}

/// Whether a text reads as a scenario of so many ports.
fn check(alloc: Global, text: &[u8], ports: u64) -> Result<(), SaveFault>
    requires from_one { 1 ≤ ports }
    requires to_eight { ports ≤ 8 }
    ensures read { OnOk result (IsRead ports text.now) }
    ensures differs { result ≡ Err differs → IsNotRead ports text.now }
{
    match ports {
        1 => check_for::<1>(alloc, text),
        2 => check_for::<2>(alloc, text),
        3 => check_for::<3>(alloc, text),
        4 => check_for::<4>(alloc, text),
        5 => check_for::<5>(alloc, text),
        6 => check_for::<6>(alloc, text),
        7 => check_for::<7>(alloc, text),
        _ => check_for::<8>(alloc, text),
    }
}

/// The text of a scenario file to begin with: a charger of 1 to 8 ports with usual supplies, two cables, a laptop and a phone, and
/// what comes to each port. Comments say what each key is. It was read back, and is a scenario.
///
/// # Errors
/// `Memory` where there is none; `Differs` where the text reads as no scenario. No number of ports is known for which it does.
pub fn new_text(alloc: Global, ports: u64) -> Result<Vec<u8>, SaveFault>
    requires from_one { 1 ≤ ports }
    requires to_eight { ports ≤ 8 }
    ensures text { IfOk result (λ v. v.items ≡ new_file ports) }
    ensures reads_back { IfOk result (λ v. IsRead ports v.items) }
    ensures differs { result ≡ Err differs → IsNotRead ports (new_file ports) }
{
    let mut text = Vec::new(alloc);
    push_new_file(&mut text, ports)?;
    check(alloc, text.as_slice(), ports)?;
    Ok(text)
}
