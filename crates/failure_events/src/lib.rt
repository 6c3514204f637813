//! Silence: who hasn't been heard for too long, and whether the majority is lost.
#![tactic(auto)]

ghost use Rattle.std.specs.Prelude.{◌≡◌, ◌≤◌, ◌+◌, ◌∷◌, ℕ, [], List, false, map};
ghost use Rattle.gr_ids.specs.declared.names.Inc.{Inc as Member};
ghost use Rattle.paxos_forms.specs.declared.message.Message.{Message as AnyMessage};
ghost use Rattle.paxos_forms.specs.declared.welcome.Welcome.{Welcome as AnyWelcome};
ghost use Rattle.group_rules.specs.Events.{Came, Did, Enters, Entry, Founds, Hears, Life, Setup, Ticks, Took};
ghost use Rattle.group_rules.specs.Watch.{gives_up, heard, is_expel_due, leads_by_rank, suspects, ticked, watch as watch_of, watched};
ghost use Rattle.failure_events.specs.Watching.{Watches, Watching, capped, first_watch, is_of_watch, last_count};

mod counting;
mod following;
mod watch;

pub use watch::Watch;

/// A watch stands for a history, thing by thing, but that its counts stop at their last value; and it tells the same of who is suspected,
/// who is to be expelled, who leads, and whether the majority was lost for too long.
pub fn watches_are_those_of_the_rules()
    ensures founded { (s : Setup) (me : Member) → Watches s me (Founds ∷ []) (first_watch me s.limits (map (λ j. j.inc) s.founders)) }
    ensures welcomed { (s : Setup) (me : Member) (l : Life) (w : AnyWelcome)
        → Watches s me (Enters w ∷ l) (first_watch me s.limits (map (λ m. m.joiner.inc) w.members)) }
    ensures ticked { (s : Setup) (me : Member) (l : Life) (x : Watching) → Watches s me l x
        → Watches s me (Came Ticks ∷ l) (record x { watch = capped (ticked x.me x.watch) }) }
    ensures heard { (s : Setup) (me : Member) (l : Life) (m : AnyMessage) (x : Watching) → Watches s me l x
        → Watches s me (Came (Hears m) ∷ l) (record x { watch = heard x.watch m.from }) }
    ensures taken { (s : Setup) (me : Member) (l : Life) (e : Entry) (x : Watching) → Watches s me l x
        → Watches s me (Took e ∷ l) (record x { watch = watched e.value.what e.effect x.watch }) }
    ensures passed { (s : Setup) (me : Member) (l : Life) (d : Did) (x : Watching) → is_of_watch d ≡ false → Watches s me l x
        → Watches s me (d ∷ l) x }
    ensures suspected { (s : Setup) (me : Member) (l : Life) (x : Watching) (i : Member) → Watches s me l x
        → suspects x.me x.watch i ≡ suspects me (watch_of s me l) i }
    ensures expelled { (s : Setup) (me : Member) (l : Life) (x : Watching) (i : Member) (n : ℕ) → Watches s me l x → n + 5 ≤ last_count
        → is_expel_due n x.watch i ≡ is_expel_due n (watch_of s me l) i }
    ensures led { (s : Setup) (me : Member) (l : Life) (x : Watching) (online : List Member) → Watches s me l x
        → leads_by_rank x.me x.watch online ≡ leads_by_rank me (watch_of s me l) online }
    ensures lost { (s : Setup) (me : Member) (l : Life) (x : Watching) (n : ℕ) → Watches s me l x → n ≤ last_count
        → gives_up n x.watch ≡ gives_up n (watch_of s me l) }
{}
