// Why steps are refused.
ghost use Rattle.std.specs.Prelude.{◌≡◌, List, Option, option_copied, option_map, is_some};
ghost use Rattle.std.specs.List.{list_all};
ghost use Rattle.group_rules.specs.Script.{Play, Refusal, all_run, has_addressee as has_addressee_in, is_in_use, letter_at, letter_refusal, meets_declared, names, refusal, wire_refusal};
ghost use Rattle.group_rules.specs.World.{Server, World, is_declared, is_running, running_of};
ghost use Rattle.world_servers.specs.Naming.{AreOf, is_there};
ghost use Rattle.group_world.specs.Refusing.{fault_for, others_of, passes, runner_of as runner, server_of as server_at};
ghost use Rattle.group_world.specs.Sites.{AreSites, at_number};
ghost use Rattle.group_world.specs.Standing.{Along};

use crate::sites::Sites;
use crate::stage::Stage;
use group_rules::Step;
use report_text::WorldFault;
use world_servers::{Servers, servers_are_those_of_the_world};
use world_wire::Letter;

impl Stage {
    /// Why the step is refused, if it is: the first reason of their order.
    pub(crate) fn refusal(&self, step: &Step) -> Option<WorldFault>
        ensures why { (y : Play) → Along y self.now → result ≡ option_map fault_for (refusal step.now y) }
        ensures kind { (r : Option Refusal) × (result ≡ option_map fault_for r) }
    {
        if self.meets_declared(step) {
            return Some(WorldFault::Declared);
        }
        if !self.are_declared(step) {
            return Some(WorldFault::NoServer);
        }
        if self.is_in_use(step) {
            return Some(WorldFault::AlreadyRunning);
        }
        if let Some(fault) = self.wire_fault(step) {
            return Some(fault);
        }
        if !self.all_run(step) {
            return Some(WorldFault::NoMember);
        }
        None
    }

    // A number or UUID that it would declare is taken.
    fn meets_declared(&self, step: &Step) -> bool
        ensures { (y : Play) → Along y self.now → result ≡ meets_declared step.now y.world }
    {
        servers_are_those_of_the_world();
        match step {
            Step::Server { number, uuid, .. } => self.is_taken(*number, *uuid),
            Step::Found { group, .. } => self.servers.is_group_taken(*group),
            _ => false,
        }
    }

    // All servers that it names are declared.
    fn are_declared(&self, step: &Step) -> bool
        ensures { (y : Play) → Along y self.now → result ≡ list_all (is_declared y.world) (names step.now) }
    {
        servers_are_those_of_the_world();
        if !is_one_declared(&self.servers, server_of(step)) {
            return false;
        }
        are_others_declared(&self.servers, step)
    }

    // A server runs that may not.
    fn is_in_use(&self, step: &Step) -> bool
        ensures { (y : Play) → Along y self.now → result ≡ is_in_use step.now y.world }
    {
        match step {
            Step::Start { server, .. } => self.sites.is_running(*server),
            Step::Offline { server, .. } => self.sites.is_running(*server),
            _ => false,
        }
    }

    // A message that it names wasn't sent, or is lost.
    fn wire_fault(&self, step: &Step) -> Option<WorldFault>
        ensures why { (y : Play) → Along y self.now → result ≡ option_map fault_for (wire_refusal step.now y) }
        ensures kind { (r : Option Refusal) × (result ≡ option_map fault_for r) }
    {
        match step {
            Step::Deliver { k } => letter_fault(*k, self.wire.letter(*k)),
            Step::Lose { k } => letter_fault(*k, self.wire.letter(*k)),
            _ => None,
        }
    }

    // All run that have to.
    fn all_run(&self, step: &Step) -> bool
        ensures { (y : Play) → Along y self.now → result ≡ all_run step.now y }
    {
        match step {
            Step::Deliver { k } => self.has_addressee(*k),
            _ => self.does_run(runner_of(step)),
        }
    }

    fn has_addressee(&self, k: u64) -> bool
        ensures { (y : Play) → Along y self.now → result ≡ has_addressee_in y.world (letter_at y.wire k) }
    {
        match self.wire.letter(k) {
            None => false,
            Some(letter) => self.sites.runs(letter.message().to),
        }
    }

    fn does_run(&self, server: Option<u8>) -> bool
        ensures { (y : Play) → Along y self.now → result ≡ passes (is_running y.world) server }
    {
        match server {
            None => true,
            Some(server) => self.sites.is_running(server),
        }
    }
}

impl Sites {
    /// Whether an incarnation runs at the server.
    pub(crate) fn is_running(&self, server: u8) -> bool
        ensures { (ss : List Server) → AreSites ss self.now → result ≡ is_some (running_of (at_number server ss)) }
    {
        self.running(server).is_some()
    }
}

fn letter_fault(k: u64, letter: Option<&Letter>) -> Option<WorldFault>
    ensures { result ≡ option_map fault_for (letter_refusal k (option_copied letter.entry)) }
{
    match letter {
        None => Some(WorldFault::NoMessage { k }),
        Some(letter) => {
            if letter.is_lost() {
                Some(WorldFault::MessageLost { k })
            } else {
                None
            }
        }
    }
}

fn is_one_declared(servers: &Servers, server: Option<u8>) -> bool
    ensures { result ≡ passes (is_there servers.now) server }
{
    match server {
        None => true,
        Some(server) => servers.is_declared(server),
    }
}

fn are_others_declared(servers: &Servers, step: &Step) -> bool
    ensures { result ≡ list_all (is_there servers.now) (others_of step.now) }
{
    match step {
        Step::Settle { servers: among } => are_all_declared(servers, among.as_slice()),
        Step::Start { via, .. } => servers.is_declared(*via),
        _ => true,
    }
}

fn are_all_declared(servers: &Servers, numbers: &[u8]) -> bool
    ensures { result ≡ list_all (is_there servers.now) numbers.now }
{
    numbers.iter().all(|number| servers.is_declared(*number))
}

// The server at which an incarnation has to run.
fn runner_of(step: &Step) -> Option<u8>
    ensures { result ≡ runner step.now }
{
    match step {
        Step::Start { via, .. } => Some(*via),
        Step::Offline { .. } => None,
        _ => server_of(step),
    }
}

// The server at which the step is done.
fn server_of(step: &Step) -> Option<u8>
    ensures { result ≡ server_at step.now }
{
    match step {
        Step::Session { server, .. }
        | Step::Once { server, .. }
        | Step::Operate { server, .. }
        | Step::Work { server, .. }
        | Step::Tick { server, .. }
        | Step::Start { server, .. }
        | Step::Stop { server, .. }
        | Step::Offline { server, .. }
        | Step::ShowMembers { server, .. }
        | Step::ShowSlots { server, .. }
        | Step::ShowConfig { server, .. }
        | Step::ShowGtids { server, .. }
        | Step::ShowRows { server, .. }
        | Step::ShowQueue { server, .. }
        | Step::ShowCertifier { server, .. }
        | Step::ShowKept { server, .. }
        | Step::Finish { server, .. } => Some(*server),
        _ => None,
    }
}
