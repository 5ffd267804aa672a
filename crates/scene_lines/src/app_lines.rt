//! Applications.

ghost use Rattle.std.specs.Prelude.{◌≡◌, ◌++◌, ◌∷◌, [], IfOk, IsTrue, map};
ghost use Rattle.std.specs.List.{list_all};
ghost use Rattle.kernel_values.specs.Words.{is_name};
ghost use Rattle.app_manifest.specs.Spelled.{HasLawfulPorts};
ghost use Rattle.script_lines.specs.Gives.{Gives};
ghost use Rattle.scene_lines.specs.Lawful.{IsLawful};
ghost use Rattle.script_lines.specs.Texts.{is_text_byte};
ghost use Rattle.scene_lines.specs.declared.reading.Used.{Used};
ghost use Rattle.scene_lines.specs.Reading.{is_taken, is_named, manifest_act, with_ports, new_app, with_app, described_app, named_app, app_act};

use crate::last_place::{is_in_repeat, settled};
use crate::reading::{Noted, OpenApp, Place, Registered};
use app_manifest::{manifests_are_lawful, read_manifest};
use kernel_values::{
    Bytes, Copied, Items, Manifest, NoMemory, Script, ScriptList, StartPort, StartPortList,
};
use script_lines::fault::LineRefused::{self, Fault};
use script_lines::fault::SceneKind::{BadManifest, BadWords, NameTaken, OutOfPlace, TooMany};
use script_lines::numbers::is_name;
use script_lines::texts::after_two_words;
use std::alloc::Global;

// Without a manifest an application has its number and 1 as UUID, and no more.
#[tactic(auto, unfolding(crate::specs::Reading::manifest_act))]
fn manifest_act(alloc: Global, number: usize, text: &[u8]) -> Result<Manifest, LineRefused>
    requires { IsTrue (list_all is_text_byte text.now) }
    ensures exact { Gives (λ manifest. manifest) result (manifest_act number text.now) }
    ensures lawful { IfOk result HasLawfulPorts }
{
    if text.is_empty() {
        return Ok(Manifest {
            uuid: number as u128 + 1,
            restart: false,
            deferred: false,
            ports: StartPortList::new(alloc),
        });
    }
    manifests_are_lawful();
    let read = read_manifest(alloc, text)?;
    match read {
        Some(manifest) => Ok(manifest),
        None => Err(Fault(BadManifest)),
    }
}

fn is_taken(names: &Items<Bytes>, name: &[u8]) -> bool
    ensures { result ≡ is_taken names.now name.now }
{
    names
        .as_slice()
        .iter()
        .any(|other| other.as_slice() == name)
}

// The paths of these start ports go last, unless one comes twice.
#[tactic(auto, unfolding(crate::specs::Reading::with_ports))]
fn with_ports(paths: &mut Items<Bytes>, ports: &[StartPort]) -> Result<(), LineRefused>
    ensures { Gives (λ _. paths.new) result (with_ports paths.old ports.now) }
{
    match ports {
        [] => Ok(()),
        [port, rest @ ..] => {
            if is_taken(paths, port.path.as_slice()) {
                return Err(Fault(NameTaken));
            }
            paths.push(port.path.copied()?)?;
            with_ports(paths, rest)
        }
    }
}

/// Applications and clients share their names.
pub fn is_named(noted: &Noted, name: &[u8]) -> bool
    ensures { result ≡ is_named noted.now name.now }
{
    is_taken(&noted.names, name) || is_taken(&noted.client_names, name)
}

fn new_app(alloc: Global, name: Bytes, manifest: Manifest) -> Place
    ensures { result ≡ new_app name manifest }
{
    Place::App(OpenApp {
        name,
        manifest,
        threads: ScriptList::new(alloc),
        script: Script::new(alloc),
        names: Items::new(alloc),
        has_thread: false,
    })
}

fn named_last(
    alloc: Global,
    before: Registered,
    name: &[u8],
    manifest: Manifest,
) -> Result<(Registered, Place), NoMemory>
    ensures { IfOk result (λ next. next ≡ (record before { noted = record before.noted { names = before.noted.names ++ name.now ∷ [] } }, new_app name.now manifest)) }
{
    let mut before = before;
    let Ok(named) = Bytes::from_slice(alloc, name) else {
        drop(before);
        drop(manifest);
        return Err(NoMemory);
    };
    let Ok(noted) = Bytes::from_slice(alloc, name) else {
        drop(before);
        drop(manifest);
        drop(named);
        return Err(NoMemory);
    };
    match before.noted.names.push(noted) {
        Ok(()) => Ok((before, new_app(alloc, named, manifest))),
        Err(_) => {
            drop(before);
            drop(manifest);
            drop(named);
            Err(NoMemory)
        }
    }
}

// The application with this name and manifest comes last.
#[tactic(auto, unfolding(crate::specs::Reading::with_app))]
fn with_app(
    alloc: Global,
    before: Registered,
    last: Place,
    name: &[u8],
    manifest: Manifest,
) -> Result<(Registered, Place), LineRefused>
    ensures { Gives (λ next. next) result (with_app before last name.now manifest) }
{
    let mut before = before;
    if is_named(&before.noted, name) {
        drop(before);
        drop(last);
        drop(manifest);
        return Err(Fault(NameTaken));
    }
    if let Err(refused) = with_ports(&mut before.noted.ports, manifest.ports.as_slice()) {
        drop(before);
        drop(last);
        drop(manifest);
        return Err(refused);
    }
    if before.noted.names.len() >= 32 {
        drop(before);
        drop(last);
        drop(manifest);
        return Err(Fault(TooMany));
    }
    let Registered {
        apps,
        clients,
        noted,
    } = before;
    match settled(apps, clients, last) {
        Ok((apps, clients)) => {
            let before = Registered {
                apps,
                clients,
                noted,
            };
            match named_last(alloc, before, name, manifest) {
                Ok(next) => Ok(next),
                Err(_) => Err(LineRefused::NoMemory),
            }
        }
        Err(_) => {
            drop(noted);
            drop(manifest);
            Err(LineRefused::NoMemory)
        }
    }
}

// The application with this name, and the rest of the line as its manifest.
#[tactic(auto, unfolding(crate::specs::Reading::described_app))]
fn described_app(
    alloc: Global,
    before: Registered,
    last: Place,
    line: &[u8],
    name: &[u8],
) -> Result<(Registered, Place), LineRefused>
    requires text { IsTrue (list_all is_text_byte line.now) }
    requires name { IsTrue (is_name name.now) }
    ensures exact { Gives (λ next. next) result (described_app before last line.now name.now) }
    ensures kept { (used : Used) → IsLawful before last used → IfOk result (λ next. IsLawful next.0 next.1 used) }
{
    match manifest_act(alloc, before.noted.names.len(), after_two_words(line)) {
        Ok(manifest) => with_app(alloc, before, last, name, manifest),
        Err(refused) => {
            drop(before);
            drop(last);
            Err(refused)
        }
    }
}

#[tactic(auto, unfolding(crate::specs::Reading::named_app))]
fn named_app(
    alloc: Global,
    before: Registered,
    last: Place,
    line: &[u8],
    words: &[&[u8]],
) -> Result<(Registered, Place), LineRefused>
    requires { IsTrue (list_all is_text_byte line.now) }
    ensures exact { Gives (λ next. next) result (named_app before last line.now (map (λ word. word.now) words.now)) }
    ensures kept { (used : Used) → IsLawful before last used → IfOk result (λ next. IsLawful next.0 next.1 used) }
{
    let [name, ..] = words else {
        drop(before);
        drop(last);
        return Err(Fault(BadWords));
    };
    if !is_name(name) {
        drop(before);
        drop(last);
        return Err(Fault(BadWords));
    }
    Ok(described_app(alloc, before, last, line, name)?)
}

/// `app NAME`, and a manifest as the rest of the line.
#[tactic(auto, unfolding(crate::specs::Reading::app_act))]
pub fn app_act(
    alloc: Global,
    before: Registered,
    last: Place,
    line: &[u8],
    words: &[&[u8]],
) -> Result<(Registered, Place), LineRefused>
    requires { IsTrue (list_all is_text_byte line.now) }
    ensures exact { Gives (λ next. next) result (app_act before last line.now (map (λ word. word.now) words.now)) }
    ensures kept { (used : Used) → IsLawful before last used → IfOk result (λ next. IsLawful next.0 next.1 used) }
{
    if is_in_repeat(&last) {
        drop(before);
        drop(last);
        return Err(Fault(OutOfPlace));
    }
    Ok(named_app(alloc, before, last, line, words)?)
}
