ghost use Rattle.query.specs.Reply.{reply_text, verdict};
ghost use Rattle.std.specs.Prelude.{◌≡◌};

// What a granted query is answered.
#[derive(Clone, Copy, PartialEq, Eq, Debug)]
pub enum Reply {
    // The names have joined the known set.
    Done,
    // Every row that contains the known set and the supposed names contains the further names.
    Yes,
    // Some row does not.
    No,
}

impl Reply {
    // The bytes of the reply, without a line feed; they go into lent output as they are, so there is no `Display`, which writes text through a formatter.
    pub fn text(&self) -> &'static [u8]
        ensures text { result.now ≡ reply_text self.now }
    {
        match self {
            Reply::Done => b"done",
            Reply::Yes => b"yes",
            Reply::No => b"no",
        }
    }
}

// Yes where it holds, else no.
impl From<bool> for Reply {
    ghost from_gives = { λ holds reply. reply ≡ verdict holds };

    fn from(holds: bool) -> Reply {
        if holds { Reply::Yes } else { Reply::No }
    }
}
