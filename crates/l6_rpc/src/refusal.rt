//! Why a request is answered by an error.

ghost use Rattle.std.specs.Prelude.{◌≡◌};
ghost use Rattle.l6_rpc.specs.Rpc as spec;

/// Why a request is answered by an error.
#[derive(Clone, Copy, Debug, PartialEq, Eq)]
pub enum Refusal {
    /// What came is no JSON.
    NoMessage,
    /// What came is no request, or none that may come now.
    NoRequest,
    /// There is no such method.
    NoMethod,
    /// A parameter is missing, or is another than the protocol has.
    NoParameters,
    /// The server was not initialized yet.
    NotReady,
    /// What is asked for can't be done, for this reason.
    Failed(&'static str),
}

impl Refusal {
    /// The number by which the protocol knows it.
    pub fn code(self) -> i64
        ensures { result ≡ spec.code_of self }
    {
        match self {
            Refusal::NoMessage => -32_700,
            Refusal::NoRequest => -32_600,
            Refusal::NoMethod => -32_601,
            Refusal::NoParameters => -32_602,
            Refusal::NotReady => -32_002,
            Refusal::Failed(_) => -32_803,
        }
    }

    /// Why, in words.
    pub fn sentence(self) -> &'static str
        ensures { result.now ≡ spec.sentence_of self }
    {
        match self {
            Refusal::NoMessage => "the message is not JSON",
            Refusal::NoRequest => "the message is not a request that can come here",
            Refusal::NoMethod => "there is no such method",
            Refusal::NoParameters => "a parameter is missing or wrong",
            Refusal::NotReady => "the server is not initialized",
            Refusal::Failed(why) => why,
        }
    }
}
