//! The actors form: for each actor a line for each of its calls, with the call's answer.

ghost use Rattle.std.specs.Prelude.{◌≡◌, ◌++◌, [], OnOk, length, option_copied, is_some, map};
ghost use Rattle.report_text.specs.Printing.{Prints};
ghost use Rattle.report_text.specs.Lines.{lined, spelled, text_of};
ghost use Rattle.report_text.specs.OwnCalls.{begun_by, wait_answer, answer_in, final_answer, led_by, calls_of};
ghost use Rattle.report_text.specs.Forms.{outcome_words, answered_call_words, actor_words, one_actor_lines, actors_lines};
ghost use Rattle.kernel_log.specs.Books.{is_of_actor};

use crate::answers::write_answer;
use crate::calls::write_call;
use crate::line::{Line, print_line};
use crate::names::NameList;
use crate::refused::PrintRefused;
use kernel_types::values::{Answer, Call, Entry, Event, NoMemory};
use outside_io::Sink;

fn begun_by(actor: usize, event: &Event) -> Option<&Call>
    ensures { option_copied result ≡ begun_by actor event.now }
{
    match event {
        Event::Begin {
            actor: own,
            call,
            ..
        } => {
            if own.0 as usize == actor {
                Some(call)
            } else {
                None
            }
        }
        Event::Resume { .. } | Event::Device | Event::Idle => None,
    }
}

fn has_begun(actor: usize, event: &Event) -> bool
    ensures { result ≡ is_some (begun_by actor event.now) }
{
    begun_by(actor, event).is_some()
}

fn is_of_actor(actor: usize, event: &Event) -> bool
    ensures { result ≡ is_of_actor actor event.now }
{
    match event {
        Event::Begin { actor: own, .. } => own.0 as usize == actor,
        Event::Resume { actor: own, .. } => own.0 as usize == actor,
        Event::Device => false,
        Event::Idle => false,
    }
}

fn wait_answer(entry: &Entry) -> Option<&Answer>
    ensures { option_copied result ≡ wait_answer entry.now.event entry.now.answer }
{
    match entry.event {
        Event::Resume { .. } => Some(&entry.answer),
        Event::Begin { .. } | Event::Device | Event::Idle => None,
    }
}

// The answer to a wait of the actor, as the entries after it tell.
fn answer_in(actor: usize, later: &[Entry]) -> Option<&Answer>
    ensures { option_copied result ≡ answer_in actor later.now }
{
    for entry in later {
        if is_of_actor(actor, &entry.event) {
            return wait_answer(entry);
        }
    }
    None
}

fn final_answer<'a>(actor: usize, answer: &'a Answer, later: &'a [Entry]) -> Option<&'a Answer>
    ensures { option_copied result ≡ final_answer actor answer.now later.now }
{
    match answer {
        Answer::Waits => answer_in(actor, later),
        Answer::Gives(_)
        | Answer::Refuses(_)
        | Answer::Device(_)
        | Answer::Clock(_)
        | Answer::CancelAll => Some(answer),
    }
}

fn write_outcome(line: &mut Line, answer: Option<&Answer>) -> Result<(), NoMemory>
    ensures { OnOk result (line.new ≡ line.old ++ spelled (outcome_words (option_copied answer.entry))) }
{
    match answer {
        None => line.word("none"),
        Some(answer) => write_answer(line, answer),
    }
}

#[tactic(auto, unfolding(crate::specs::Forms::answered_call_words))]
fn write_answered_call(
    line: &mut Line,
    call: &Call,
    answer: Option<&Answer>,
) -> Result<(), NoMemory>
    ensures { OnOk result (line.new ≡ line.old ++ spelled (answered_call_words (call.now, option_copied answer.entry))) }
{
    write_call(line, call)?;
    line.word("->")?;
    write_outcome(line, answer)
}

fn print_call<K: Sink>(
    line: &mut Line,
    call: &Call,
    answer: Option<&Answer>,
    sink: &mut K,
) -> Result<(), PrintRefused>
    ensures { Prints (K.written sink.old) (K.written sink.new) (K.faults sink.old) (K.faults sink.new) (K.calls sink.old) (K.calls sink.new) result (lined (answered_call_words (call.now, option_copied answer.entry))) }
{
    line.clear();
    write_answered_call(line, call, answer)?;
    print_line(line, sink)
}

// Prints the actor's call that begins with this entry, where one does.
fn print_own_call<K: Sink>(
    line: &mut Line,
    actor: usize,
    entry: &Entry,
    later: &[Entry],
    sink: &mut K,
) -> Result<(), PrintRefused>
    ensures { Prints (K.written sink.old) (K.written sink.new) (K.faults sink.old) (K.faults sink.new) (K.calls sink.old) (K.calls sink.new) result (text_of (map answered_call_words (led_by (begun_by actor entry.now.event) (final_answer actor entry.now.answer later.now) []))) }
{
    match begun_by(actor, &entry.event) {
        None => Ok(()),
        Some(call) => print_call(line, call, final_answer(actor, &entry.answer, later), sink),
    }
}

fn print_own_calls<K: Sink>(
    line: &mut Line,
    actor: usize,
    entries: &[Entry],
    sink: &mut K,
) -> Result<(), PrintRefused>
    ensures { Prints (K.written sink.old) (K.written sink.new) (K.faults sink.old) (K.faults sink.new) (K.calls sink.old) (K.calls sink.new) result (text_of (map answered_call_words (calls_of actor entries.now))) }
{
    for k in 0..entries.len() {
        let (_, later) = entries.split_at(k + 1);
        print_own_call(line, actor, &entries[k], later, sink)?;
    }
    Ok(())
}

fn count_calls(actor: usize, entries: &[Entry]) -> u64
    ensures { result ≡ length (calls_of actor entries.now) }
{
    let mut calls = 0;
    for entry in entries {
        if has_begun(actor, &entry.event) {
            calls += 1;
        }
    }
    calls
}

fn write_actor(line: &mut Line, name: &[u8], calls: u64) -> Result<(), NoMemory>
    ensures { OnOk result (line.new ≡ line.old ++ spelled (actor_words name.now calls)) }
{
    line.word("actor")?;
    line.name(name)?;
    line.named("calls", calls)
}

fn print_actor<K: Sink>(
    line: &mut Line,
    name: &[u8],
    calls: u64,
    sink: &mut K,
) -> Result<(), PrintRefused>
    ensures { Prints (K.written sink.old) (K.written sink.new) (K.faults sink.old) (K.faults sink.new) (K.calls sink.old) (K.calls sink.new) result (lined (actor_words name.now calls)) }
{
    line.clear();
    write_actor(line, name, calls)?;
    print_line(line, sink)
}

fn print_one_actor<K: Sink>(
    line: &mut Line,
    actor: usize,
    name: &[u8],
    entries: &[Entry],
    sink: &mut K,
) -> Result<(), PrintRefused>
    ensures { Prints (K.written sink.old) (K.written sink.new) (K.faults sink.old) (K.faults sink.new) (K.calls sink.old) (K.calls sink.new) result (text_of (one_actor_lines entries.now actor name.now)) }
{
    print_actor(line, name, count_calls(actor, entries), sink)?;
    print_own_calls(line, actor, entries, sink)
}

/// Prints the actors form, without the last line.
pub fn print_actors<K: Sink>(
    line: &mut Line,
    names: &NameList,
    entries: &[Entry],
    sink: &mut K,
) -> Result<(), PrintRefused>
    ensures { Prints (K.written sink.old) (K.written sink.new) (K.faults sink.old) (K.faults sink.new) (K.calls sink.old) (K.calls sink.new) result (text_of (actors_lines entries.now 0 names.now)) }
{
    let all = names.as_slice();
    for actor in 0..all.len() {
        print_one_actor(line, actor, all[actor].as_slice(), entries, sink)?;
    }
    Ok(())
}
