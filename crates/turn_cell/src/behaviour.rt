// An object that stands for a list of acts and replies.
ghost use Rattle.std.specs.Prelude.{List, [], ◌∷◌, ◌++◌};

/// An object that turns act on. It stands for a list of acts and replies, which each act extends by one.
pub trait Behaviour {
    type Act;

    type Reply;

    ghost stands: { Self → List (Self.Act × Self.Reply) → Type 0 };

    fn act(&mut self, act: Self::Act) -> Self::Reply
        ensures { (h : List (Self.Act × Self.Reply)) → stands self.old h → stands self.new (h ++ (act, result) ∷ []) };
}
