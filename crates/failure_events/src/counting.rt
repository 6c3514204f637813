// Counts of silence.
ghost use Rattle.std.specs.Prelude.{◌≡◌, filter, length, map, not};
ghost use Rattle.group_rules.specs.Watch.{is_lost, is_suspect, silence_in};
ghost use Rattle.failure_events.specs.Counts.{heard_from, is_suspected_in, leads_in, next_loss, one_more};

use gr_ids::Inc;
use group_rules::Silence;

/// How many ticks a silence lasts before its member is suspected.
const SUSPECTED_AT: u64 = 5;

/// The incarnation is heard.
pub(crate) fn hear(silences: &mut [Silence], inc: Inc)
    ensures { silences.new ≡ map (heard_from inc) silences.old }
{
    for silence in silences.iter_mut() {
        hear_one(silence, inc);
    }
}

fn hear_one(silence: &mut Silence, inc: Inc)
    ensures { silence.new ≡ heard_from inc silence.old }
{
    if silence.inc == inc {
        silence.ticks = 0;
    }
}

/// One tick more for each.
pub(crate) fn tick_all(silences: &mut Vec<Silence>)
    ensures { silences.new.items ≡ map one_more silences.old.items }
{
    tick_each(silences);
}

fn tick_each(silences: &mut [Silence])
    ensures { silences.new ≡ map one_more silences.old }
{
    for silence in silences.iter_mut() {
        tick_one(silence);
    }
}

fn tick_one(silence: &mut Silence)
    ensures { silence.new ≡ one_more silence.old }
{
    silence.ticks = silence.ticks.saturating_add(1);
}

/// The silence of an incarnation; 0 of one that isn't watched.
pub(crate) fn silence_of(silences: &[Silence], inc: Inc) -> u64
    ensures { result ≡ silence_in silences.now inc }
{
    for silence in silences {
        if silence.inc == inc {
            return silence.ticks;
        }
    }
    0
}

pub(crate) fn is_suspected(me: Inc, silences: &[Silence], inc: Inc) -> bool
    ensures { result ≡ is_suspected_in me silences.now inc }
{
    me != inc && silence_of(silences, inc) >= SUSPECTED_AT
}

fn is_silent(me: Inc, silence: &Silence) -> bool
    ensures { result ≡ is_suspect me silence.now }
{
    me != silence.inc && silence.ticks >= SUSPECTED_AT
}

/// Whether fewer than a majority of these aren't suspected; where there are none, the majority isn't lost.
pub(crate) fn is_majority_lost(me: Inc, silences: &[Silence]) -> bool
    ensures { result ≡ is_lost me silences.now }
{
    if silences.is_empty() {
        return false;
    }
    heard_count(me, silences) < silences.len() / 2 + 1
}

/// At how many ticks in a row the majority was lost, after one more.
pub(crate) fn next_count(lost: bool, count: u64) -> u64
    ensures { result ≡ next_loss lost count }
{
    if lost { count.saturating_add(1) } else { 0 }
}

fn heard_count(me: Inc, silences: &[Silence]) -> usize
    ensures { result ≡ length (filter (λ y. not (is_suspect me y)) silences.now) }
{
    silences
        .iter()
        .filter(|silence| !is_silent(me, silence))
        .count()
}

/// Whether this member is the first of these that isn't suspected.
pub(crate) fn leads(me: Inc, silences: &[Silence], online: &[Inc]) -> bool
    ensures { result ≡ leads_in me silences.now online.now }
{
    for inc in online {
        if !is_suspected(me, silences, *inc) {
            return *inc == me;
        }
    }
    false
}
