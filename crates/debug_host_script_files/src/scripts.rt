//! The scripts that files hold.

ghost use Rattle.std.specs.Prelude.{◌≡◌, ◌∷◌, ◌++◌, [], List, ℕ, IfOk, IfErr, OnOk};
ghost use Rattle.cdp_edge.specs.Outside.{NamedFile, Given, HandsIn};
ghost use Rattle.js_tree.specs.declared.script.Script.{Script as AnyScript};
ghost use Rattle.debug_host_script_files.specs.TopNames.{declared_in};
ghost use Rattle.debug_host_script_files.specs.Scripts.{AreScripts, HoldsScript, IsOneMore, IsRefusedAt, Fails, FailsNext, names_held};
ghost use Rattle.debug_host_script_files.specs.declared.fault.TextFault.{TextFault as AnyRefusal};

use crate::evidence::{Evidence, FileEvidence};
use crate::fault::FileFault;
use crate::source::script_of;
use crate::top_names::add_names;
use cdp_edge::{Shelf, ShelfFault};
use cdp_text::units::Units;
use js_tree::script::Script;
use std::alloc::{AllocError, Global};

/// Why a file isn't taken as a script, with its name.
#[derive(Clone, Copy)]
pub struct ScriptFault<'n> {
    /// The name of the file.
    pub name: &'n str,
    /// Why it isn't taken.
    pub fault: FileFault,
}

/// Reads the file of this name as the script behind these, which declare these names.
#[tactic(auto, using(crate::proofs::ScriptLemmas::unread))]
fn read_script<F: Shelf>(
    alloc: Global,
    shelf: &mut F,
    name: &str,
    earlier: &[Script],
    declared: &[Units],
    evidence: &mut Evidence,
) -> Result<Script, FileFault>
    requires { declared.now ≡ declared_in earlier.now }
    ensures script { IfOk result (λ s. Given (HandsIn (F.files shelf.old) (F.handed shelf.old) (F.handed shelf.new)) (λ given. HoldsScript given earlier.now name.now s)) }
    ensures quiet { IfOk result (λ s. F.faults shelf.new ≡ F.faults shelf.old) }
    ensures fault { IfErr result (λ fault. FailsNext fault (HandsIn (F.files shelf.old) (F.handed shelf.old) (F.handed shelf.new)) earlier.now name.now (F.faults shelf.old) (F.faults shelf.new)) }
    ensures files { F.files shelf.new ≡ F.files shelf.old }
    ensures stored { F.stored shelf.new ≡ F.stored shelf.old }
{
    let bytes = match shelf.read(alloc, name) {
        Ok(bytes) => bytes,
        Err(ShelfFault::Memory) => return Err(FileFault::Memory),
        Err(ShelfFault::NotThere) => {
            evidence.file = FileEvidence::NotThere;
            return Err(FileFault::CannotRead);
        }
        Err(ShelfFault::Failed) => {
            evidence.file = FileEvidence::Unreachable;
            return Err(FileFault::CannotRead);
        }
    };
    match script_of(alloc, &bytes, name, earlier.len(), declared) {
        Ok(script) => Ok(script),
        Err(fault) => {
            evidence.file = FileEvidence::Content(bytes);
            Err(fault)
        }
    }
}

/// Adds a script, and the names that it declares.
fn keep(
    script: Script,
    scripts: &mut Vec<Script>,
    declared: &mut Vec<Units>,
) -> Result<(), AllocError>
    requires { declared.old.items ≡ declared_in scripts.old.items }
    ensures scripts { OnOk result (scripts.new.items ≡ scripts.old.items ++ script ∷ []) }
    ensures declared { OnOk result (declared.new.items ≡ declared_in scripts.new.items) }
{
    add_names(&script.body, declared)?;
    scripts.push(script)?;
    Ok(())
}

/// Reads the file of this name as the next script, and adds it, and the names that it declares.
fn add_script<F: Shelf>(
    alloc: Global,
    shelf: &mut F,
    name: &str,
    scripts: &mut Vec<Script>,
    declared: &mut Vec<Units>,
    evidence: &mut Evidence,
) -> Result<(), FileFault>
    requires { declared.old.items ≡ declared_in scripts.old.items }
    ensures script { OnOk result (Given (HandsIn (F.files shelf.old) (F.handed shelf.old) (F.handed shelf.new)) (λ given. IsOneMore given scripts.old.items scripts.new.items name.now)) }
    ensures declared { OnOk result (declared.new.items ≡ declared_in scripts.new.items) }
    ensures quiet { OnOk result (F.faults shelf.new ≡ F.faults shelf.old) }
    ensures fault { IfErr result (λ fault. FailsNext fault (HandsIn (F.files shelf.old) (F.handed shelf.old) (F.handed shelf.new)) scripts.old.items name.now (F.faults shelf.old) (F.faults shelf.new)) }
    ensures files { F.files shelf.new ≡ F.files shelf.old }
    ensures stored { F.stored shelf.new ≡ F.stored shelf.old }
{
    let script = match read_script(alloc, shelf, name, scripts, declared, evidence) {
        Ok(script) => script,
        Err(fault) => return Err(fault),
    };
    match keep(script, scripts, declared) {
        Ok(()) => Ok(()),
        Err(AllocError) => Err(FileFault::Memory),
    }
}

/// Reads the scripts that the files of these names hold, in order, and parses them. The first fault decides, and
/// nothing behind it is read; what is left of the file that it is in becomes the evidence.
///
/// # Errors
///
/// `CannotRead` where the shelf doesn't give a file, `Refused` where it isn't UTF-8 or where the parser refuses it, and
/// `Memory`, also where there are more scripts than numbers for them.
pub fn read_scripts<'n, F: Shelf>(
    alloc: Global,
    shelf: &mut F,
    names: &[&'n str],
    evidence: &mut Evidence,
) -> Result<Vec<Script>, ScriptFault<'n>>
    ensures scripts { IfOk result (λ ss. Given (HandsIn (F.files shelf.old) (F.handed shelf.old) (F.handed shelf.new)) (λ given. AreScripts given (names_held names.now) ss.items)) }
    ensures quiet { IfOk result (λ ss. F.faults shelf.new ≡ F.faults shelf.old) }
    ensures fault { IfErr result (λ e. Fails e.fault (HandsIn (F.files shelf.old) (F.handed shelf.old) (F.handed shelf.new)) (names_held names.now) e.name.now (F.faults shelf.old) (F.faults shelf.new)) }
    ensures files { F.files shelf.new ≡ F.files shelf.old }
    ensures stored { F.stored shelf.new ≡ F.stored shelf.old }
    // Where all files hold scripts, none is refused.
    ensures one { (given : List NamedFile) (ss : List AnyScript) (name : List ℕ) (r : AnyRefusal) → AreScripts given (names_held names.now) ss → IsRefusedAt given (names_held names.now) name r → ⊥ }
{
    let mut scripts = Vec::new(alloc);
    let mut declared = Vec::new(alloc);
    for name in names {
        let name = *name;
        match add_script(alloc, shelf, name, &mut scripts, &mut declared, evidence) {
            Ok(()) => {}
            Err(fault) => {
                evidence.earlier = scripts;
                return Err(ScriptFault { name, fault });
            }
        }
    }
    Ok(scripts)
}
