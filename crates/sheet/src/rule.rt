// The record of a rule.
ghost use Rattle.std.specs.Prelude.{◌≡◌};
ghost use Rattle.sheet.specs.Rules.{body_of, made, within};

// The most facts in a body.
pub const BODY_LIMIT: usize = 4;

// A record of fixed size, as it lies in a lent slot: of the body the first `arity` places count.
#[derive(Clone, Copy)]
pub struct Rule {
    // the fact concluded
    pub head: u16,
    // the facts it is concluded from
    pub body: [u16; BODY_LIMIT],
    pub arity: u8,
    pub cost: u32,
    // out of use, for good
    pub struck: bool,
}

impl Rule {
    // A standing rule; a body beyond 4 facts is cut.
    pub fn new(head: u16, body: &[u16], cost: u32) -> Rule
        ensures { result ≡ made head body.now cost }
    {
        let arity = body.len().min(BODY_LIMIT);
        let mut places = [0; BODY_LIMIT];
        places[0..arity].copy_from_slice(&body[0..arity]);
        Rule {
            head,
            body: places,
            arity: arity as u8,
            cost,
            struck: false,
        }
    }

    // The body as it is read: at most 4 places.
    pub fn body(&self) -> &[u16]
        ensures { result.now ≡ body_of self.now }
    {
        let arity = (self.arity as usize).min(BODY_LIMIT);
        &self.body[0..arity]
    }

    // Whether the rule is struck or names only facts below the count.
    pub fn is_within(&self, facts: u16) -> bool
        ensures { result ≡ within facts self.now }
    {
        self.struck || (self.head < facts && self.body().iter().all(|fact| *fact < facts))
    }
}
