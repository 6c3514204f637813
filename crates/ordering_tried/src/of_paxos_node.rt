ghost use Rattle.std.specs.Prelude.{◌≡◌, true};
ghost use Rattle.paxos_node.specs.Events.{IsInRange, MayHappen};

use gr_ids::{Ballot, Blob, Inc, MemberState, Memory, Mode, Pos, Sequence, ValueId};
use node_rules::PaxosEvent;
use paxos_forms::{Message, Welcome, WelcomeMember, Wire};
use paxos_node::Node;
use slot_values::{Joiner, Kept, Value, What};
use std::alloc::Global;
use std::process::Abort;
use std::str::SplitWhitespace;
use std::test::Fail;

const A: Inc = Inc {
    server: 1,
    start: 1,
};

const B: Inc = Inc {
    server: 2,
    start: 1,
};

const C: Inc = Inc {
    server: 3,
    start: 1,
};

const D: Inc = Inc {
    server: 4,
    start: 1,
};

const FIRST: Ballot = Ballot { round: 1, inc: A };

const SECOND: Ballot = Ballot { round: 2, inc: C };

const THIRD: Ballot = Ballot { round: 3, inc: A };

// The value of this number, which removes an incarnation.
fn value(origin: Inc, number: u64, removed: Inc) -> Value {
    Value {
        id: ValueId { origin, number },
        what: What::Remove(removed),
    }
}

fn named(name: &str) -> Inc {
    match name {
        "A" => A,
        "B" => B,
        "C" => C,
        _ => D,
    }
}

fn name(inc: Inc) -> &'static str {
    match inc.server {
        1 => "A",
        2 => "B",
        3 => "C",
        _ => "D",
    }
}

fn kind(wire: &Wire) -> &'static str {
    match wire {
        Wire::Prepare(_, _) => "prepare",
        Wire::Promise(_, _, _) => "promise",
        Wire::Accept(_, _, _) => "accept",
        Wire::Accepted(_, _) => "accepted",
        Wire::Learn(_, _) => "learn",
        Wire::Alive(_) => "alive",
        Wire::Gone => "gone",
        _ => "other",
    }
}

fn may_happen(event: &PaxosEvent) -> bool
    ensures { result ≡ true → MayHappen event.now }
{
    match event {
        PaxosEvent::Heard(message) => is_in_range(&message.wire),
        _ => true,
    }
}

fn is_in_range(wire: &Wire) -> bool
    ensures { result ≡ true → IsInRange wire.now }
{
    match wire {
        Wire::Accepted(_, slot) => *slot <= 1 << 42,
        Wire::Learn(slot, _) => *slot <= 1 << 42,
        Wire::Welcome(welcome) => welcome.slot <= 1 << 42 && welcome.place.0 <= welcome.slot,
        _ => true,
    }
}

fn step(alloc: Global, node: &mut Node, event: &PaxosEvent) -> Result<Vec<Message>, Fail> {
    if !may_happen(event) {
        return Err(Fail::new("out of range"));
    }
    Ok(node.step(alloc, event)?)
}

// Three founders' nodes, every message that they sent, as it is heard, and what is told of them.
#[derive(Drop)]
struct Net {
    nodes: Vec<Node>,
    wire: Vec<PaxosEvent>,
    told: Blob,
}

fn node(nodes: &mut [Node], of: Inc) -> Result<&mut Node, Fail> {
    let at = of.server as usize;
    match nodes.get_mut(at.saturating_sub(1)) {
        Some(node) => Ok(node),
        None => Err(Fail::new("no such node")),
    }
}

fn post(wire: &mut Vec<PaxosEvent>, sent: Vec<Message>) -> Result<(), Memory> {
    for message in sent {
        wire.push(PaxosEvent::Heard(message))?;
    }
    Ok(())
}

impl Net {
    fn found(&mut self, alloc: Global) -> Result<(), Memory> {
        for me in [A, B, C] {
            self.nodes.push(Node::founder(alloc, me, &[A, B, C], 10)?)?;
        }
        Ok(())
    }

    fn give(&mut self, alloc: Global, to: Inc, event: &PaxosEvent) -> Result<(), Fail> {
        let sent = step(alloc, node(&mut self.nodes, to)?, event)?;
        Ok(post(&mut self.wire, sent)?)
    }

    fn deliver(&mut self, alloc: Global, at: usize) -> Result<(), Fail> {
        let Some(event) = self.wire.get(at) else {
            return Err(Fail::new("no such message"));
        };
        let sent = step(alloc, node(&mut self.nodes, addressee(event))?, event)?;
        Ok(post(&mut self.wire, sent)?)
    }

    // Tells the taker, the slot, and the place at which its value is kept, or 0.
    fn take(&mut self, alloc: Global, by: Inc) -> Result<(), Fail> {
        if let Some(taken) = node(&mut self.nodes, by)?.take(alloc)? {
            let text = format!(in alloc; " {}{}@{}", name(by), taken.slot, place(&taken.kept))?;
            self.told.append(text.as_bytes())?;
        }
        Ok(())
    }

    // Tells a node's least undecided slot, the round of its promise, and the first slot that isn't forgotten.
    fn show(&mut self, alloc: Global, of: Inc) -> Result<(), Fail> {
        let node = node(&mut self.nodes, of)?;
        let (next, kept) = (node.next(), node.kept_from());
        let text = format!(in alloc; " {}:{}/{}/{}", name(of), next, round(node), kept)?;
        Ok(self.told.append(text.as_bytes())?)
    }

    // Tells the messages after the first ones: the addressee and the kind.
    fn sent(&mut self, first: usize) -> Result<(), Memory> {
        for event in &self.wire[first.min(self.wire.len())..] {
            self.told.append(b" ")?;
            self.told.append(name(addressee(event)).as_bytes())?;
            self.told.append(kind_of(event).as_bytes())?;
        }
        Ok(())
    }

    // An incarnation has this event; takes the next slot; is shown.
    fn does(&mut self, alloc: Global, inc: Inc, what: &str) -> Result<(), Fail> {
        match what {
            "takes" => self.take(alloc, inc),
            "shows" => self.show(alloc, inc),
            _ => self.give(alloc, inc, &event(inc, what)),
        }
    }

    // What an incarnation does; `sent.` with how many messages to leave out; or the number, from 1, of a message that is heard.
    fn act(&mut self, alloc: Global, word: &str) -> Result<(), Fail> {
        match word.split_once('.') {
            Some(("sent", first)) => Ok(self.sent(number(first) as usize)?),
            Some((who, what)) => self.does(alloc, named(who), what),
            None => self.deliver(alloc, (number(word) as usize).saturating_sub(1)),
        }
    }

    fn act_all(&mut self, alloc: Global, acts: &str) -> Result<(), Fail> {
        for word in acts.split_whitespace() {
            self.act(alloc, word)?;
        }
        Ok(())
    }

    fn play(&mut self, rt: &impl Abort, alloc: Global, story: &str) -> Result<(), Fail> {
        let Some((acts, told)) = story.split_once(" =") else {
            return Err(Fail::new("no story"));
        };
        self.found(alloc)?;
        self.act_all(alloc, acts)?;
        assert!(rt; self.told.as_slice() == told.as_bytes(), "{story}");
        Ok(())
    }
}

// An incarnation makes its first value, which removes D or itself; campaigns; has a tick.
fn event(inc: Inc, what: &str) -> PaxosEvent {
    match what {
        "removes" => PaxosEvent::Own(value(inc, 1, D)),
        "leaves" => PaxosEvent::Own(value(inc, 1, inc)),
        "campaigns" => PaxosEvent::Campaign,
        _ => PaxosEvent::Tick,
    }
}

fn number(word: &str) -> u64 {
    word.parse::<u64>().unwrap_or(0)
}

fn round(node: &Node) -> u32 {
    match node.promised() {
        Some(ballot) => ballot.round,
        None => 0,
    }
}

fn place(kept: &Kept) -> u64 {
    match kept {
        Kept::At(place, _) => place.0,
        Kept::Skipped => 0,
    }
}

fn addressee(event: &PaxosEvent) -> Inc {
    match event {
        PaxosEvent::Heard(message) => message.to,
        _ => A,
    }
}

fn kind_of(event: &PaxosEvent) -> &'static str {
    match event {
        PaxosEvent::Heard(message) => kind(&message.wire),
        _ => "other",
    }
}

// In the first a leader's value is voted for by C alone, and C leads then; the old leader's Accept to B hasn't come when B
// promises. So one value is chosen in two slots. Then an old leader's Accept isn't voted for; a lost promise is asked for
// again; slots that all have told are forgotten; and who was removed is told so.
const STORIES: &str = "\
B.removes 1 3 C.campaigns 6 B.ticks 10 7 11 15 13 18 C.takes C.takes 16 19 A.takes A.takes 4 15 sent.20 A.shows = C1@1 C2@0 A1@1 A2@0 A:3/2/1
B.removes 1 3 C.campaigns 6 2 sent.3 = Aaccepted Aprepare Bprepare Cpromise
B.campaigns 2 B.ticks sent.3 7 8 B.removes 10 11 B.takes = Aalive Calive Aprepare Cprepare B1@1
A.removes 1 2 3 5 6 A.takes B.takes C.takes A.ticks B.ticks C.ticks 9 A.shows 11 A.shows = A1@1 B1@1 C1@1 A:2/1/1 A:2/1/2
C.leaves 1 2 4 5 A.takes B.takes B.ticks 7 C.campaigns 8 sent.9 A.shows = A1@1 B1@1 Cgone A:2/1/2";

fn tell(rt: &impl Abort, alloc: Global, story: &str) -> Result<(), Fail> {
    let mut net = Net {
        nodes: Vec::new(alloc),
        wire: Vec::new(alloc),
        told: Blob::from_vec(Vec::new(alloc)),
    };
    net.play(rt, alloc, story)
}

#[test]
fn nodes_agree(rt: HostRuntime) -> Result<(), Fail> {
    for story in STORIES.lines() {
        tell(&rt, rt.alloc(), story)?;
    }
    Ok(())
}

fn ballot(round: &str) -> Ballot {
    match round {
        "1" => FIRST,
        "2" => SECOND,
        _ => THIRD,
    }
}

// A message of this kind: with a slot or number, and a ballot by its round or the origin of the value.
fn wire(alloc: Global, kind: &str, by: &str, slot: u64) -> Wire {
    match kind {
        "prepare" => Wire::Prepare(ballot(by), 1),
        "promise" => Wire::Promise(ballot(by), 1, Sequence::new(alloc)),
        "accept" => Wire::Accept(ballot(by), slot, value(C, 1, D)),
        "accepted" => Wire::Accepted(ballot(by), slot),
        "learn" => Wire::Learn(slot, value(named(by), 1, named(by))),
        "offer" => Wire::Offer(value(C, slot, D)),
        "alive" => Wire::Alive(slot),
        _ => Wire::Gone,
    }
}

fn hear(alloc: Global, node: &mut Node, from: Inc, wire: Wire) -> Result<Vec<Message>, Fail> {
    let message = Message { from, to: B, wire };
    step(alloc, node, &PaxosEvent::Heard(message))
}

/// A message of a line: the sender, the kind, the slot or number, and the ballot or origin.
#[derive(Clone, Copy)]
struct Line<'a> {
    from: Inc,
    kind: &'a str,
    slot: u64,
    by: &'a str,
}

fn next_word<'a>(words: &mut SplitWhitespace<'a>) -> &'a str {
    words.next().unwrap_or("")
}

fn read_line<'a>(text: &'a str) -> Line<'a> {
    let mut words = text.split_whitespace();
    let from = named(next_word(&mut words));
    let kind = next_word(&mut words);
    let slot = number(next_word(&mut words));
    let by = next_word(&mut words);
    Line {
        from,
        kind,
        slot,
        by,
    }
}

/// How many messages answer, and of which kind the last one is.
#[derive(Clone, Copy)]
struct Answered {
    count: usize,
    last: &'static str,
}

fn count(sent: &[Message]) -> Answered {
    let last = match sent.last() {
        Some(message) => kind(&message.wire),
        None => "nothing",
    };
    Answered {
        count: sent.len(),
        last,
    }
}

fn hear_line(alloc: Global, node: &mut Node, line: &Line) -> Result<Answered, Fail> {
    let sent = hear(
        alloc,
        node,
        line.from,
        wire(alloc, line.kind, line.by, line.slot),
    )?;
    Ok(count(&sent))
}

// Behind what answers stand the round of the promise then, and the least undecided slot.
fn is_told(alloc: Global, node: &Node, answered: Answered, wanted: &str) -> Result<bool, Fail> {
    let (number, kind) = (answered.count, answered.last);
    let text = format!(in alloc; "{number} {kind} {} {}", round(node), node.next())?;
    Ok(text.as_str() == wanted)
}

fn answer(rt: &impl Abort, alloc: Global, node: &mut Node, line: &str) -> Result<(), Fail> {
    let Some((heard, wanted)) = line.split_once(" = ") else {
        return Err(Fail::new("no answer"));
    };
    let answered = hear_line(alloc, node, &read_line(heard))?;
    assert!(rt; is_told(alloc, node, answered, wanted)?, "{line}");
    Ok(())
}

const FOLLOWER: &str = "\
C accept 3 2 = 1 accepted 2 1
A accept 3 1 = 0 nothing 2 1
A prepare 0 1 = 0 nothing 2 1
C prepare 0 2 = 1 promise 2 1
A prepare 0 3 = 1 promise 3 1
C promise 0 3 = 0 nothing 3 1
C accepted 3 3 = 0 nothing 3 1
A learn 2 D = 0 nothing 3 1
A learn 1 A = 0 nothing 3 3
A learn 1 B = 0 nothing 3 3
C offer 0 - = 0 nothing 3 3
C offer 2 - = 0 nothing 3 3
C alive 1 - = 2 learn 3 3
C alive 2 - = 1 learn 3 3
C alive 3 - = 0 nothing 3 3
D alive 1 - = 0 nothing 3 3
A gone 0 - = 0 nothing 3 3";

const LEADER: &str = "\
C offer 0 - = 0 nothing 1 1
C offer 1 - = 2 accept 1 1
C offer 1 - = 0 nothing 1 1
C accepted 1 2 = 0 nothing 1 1
C accepted 9 1 = 0 nothing 1 1
C promise 0 2 = 0 nothing 1 1
C accepted 1 1 = 2 learn 1 2
B accepted 1 1 = 0 nothing 1 2
C offer 1 - = 2 accept 1 2
C prepare 0 2 = 1 promise 2 2
C offer 2 - = 0 nothing 2 2";

fn answer_all(rt: &impl Abort, alloc: Global, node: &mut Node, lines: &str) -> Result<(), Fail> {
    for line in lines.lines() {
        answer(rt, alloc, node, line)?;
    }
    Ok(())
}

fn follow(rt: &impl Abort, alloc: Global, node: &mut Node) -> Result<(), Fail> {
    answer_all(rt, alloc, node, FOLLOWER)?;
    assert!(rt; node.learnt_remove(A) && !node.learnt_remove(B));
    Ok(())
}

#[test]
fn a_follower_answers_by_its_rows(rt: HostRuntime) -> Result<(), Fail> {
    let mut node = Node::founder(rt.alloc(), B, &[A, B, C], 10)?;
    follow(&rt, rt.alloc(), &mut node)
}

#[test]
fn a_leader_answers_by_its_rows(rt: HostRuntime) -> Result<(), Fail> {
    let mut node = Node::founder(rt.alloc(), A, &[A, B, C], 10)?;
    assert!(rt; node.turns().members() == [A, B, C].as_slice());
    answer_all(&rt, rt.alloc(), &mut node, LEADER)
}

fn member(inc: Inc, state: MemberState) -> WelcomeMember {
    let joiner = Joiner {
        inc,
        uuid: [inc.server; 16],
        version: [8, 0, 36],
        weight: 50,
    };
    WelcomeMember {
        joiner,
        state,
        last: 0,
    }
}

fn members(alloc: Global) -> Result<Sequence<WelcomeMember>, Memory> {
    let members = [
        member(A, MemberState::Online),
        member(B, MemberState::Online),
        member(D, MemberState::Recovering),
    ];
    Ok(Sequence::from_vec(members.to_vec(alloc)?))
}

fn incs(alloc: Global, incs: &[Inc]) -> Result<Sequence<Inc>, Memory> {
    Ok(Sequence::from_vec(incs.to_vec(alloc)?))
}

fn configs(alloc: Global, known: usize) -> Result<Sequence<Sequence<Inc>>, Memory> {
    let mut configs = Vec::new(alloc);
    for _ in 1..known {
        configs.push(incs(alloc, &[A, B])?)?;
    }
    configs.push(incs(alloc, &[A, B, D])?)?;
    Ok(Sequence::from_vec(configs))
}

// D was added to A and B in this slot; so many configurations are told.
fn welcome(alloc: Global, slot: u64, known: usize) -> Result<Wire, Memory> {
    Ok(Wire::Welcome(Welcome {
        slot,
        place: Pos(2),
        number: 2,
        promise: FIRST,
        mode: Mode::Multi,
        primary: None,
        elected: Pos(0),
        members: members(alloc)?,
        ever: incs(alloc, &[A, B, D])?,
        configs: configs(alloc, known)?,
    }))
}

fn known_members(node: &Node, slot: u64) -> usize {
    match node.config(slot) {
        Some(config) => config.len(),
        None => 0,
    }
}

// It promises before it is welcomed, and that promise isn't lowered.
fn promise_early(alloc: Global, node: &mut Node) -> Result<(), Fail> {
    hear(alloc, node, B, wire(alloc, "prepare", "3", 1))?;
    hear(alloc, node, B, wire(alloc, "learn", "A", 6))?;
    Ok(())
}

// The second Welcome is whole, the others aren't taken.
fn welcome_all(rt: &impl Abort, alloc: Global, node: &mut Node) -> Result<(), Fail> {
    for (slot, known, next) in [(5, 9, 0), (5, 10, 7), (8, 10, 7)] {
        hear(alloc, node, B, welcome(alloc, slot, known)?)?;
        assert_eq!(rt; node.next(), next);
    }
    Ok(())
}

fn check_members(rt: &impl Abort, node: &Node) {
    for (slot, count) in [(5, 0), (6, 2), (14, 2), (15, 3), (16, 0)] {
        assert_eq!(rt; known_members(node, slot), count);
    }
}

fn joins(rt: &impl Abort, alloc: Global, node: &mut Node) -> Result<(), Fail> {
    assert!(rt; node.promised().is_none() && node.config(1).is_none());
    promise_early(alloc, node)?;
    welcome_all(rt, alloc, node)?;
    check_members(rt, node);
    assert!(rt; node.promised() == Some(THIRD) && node.kept_from() == 6);
    Ok(())
}

#[test]
fn a_joiner_begins_with_its_first_welcome(rt: HostRuntime) -> Result<(), Fail> {
    let mut node = Node::joiner(rt.alloc(), D, 10);
    joins(&rt, rt.alloc(), &mut node)
}
