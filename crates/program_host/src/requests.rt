//! The requests to a host, in their order. A host keeps the list beside its work, so that a contract can say what a run
//! asked for and what it didn't: which file, and whether a port was opened.
ghost use Rattle.std.specs.Prelude.{◌≡◌, [], ◌∷◌, Some, None, option_copied, option_map, MatchResult};
ghost use Rattle.program_host.specs.Requests.{Requested};

use srch_base::{NoMemory, Text};
use std::alloc::Global;
use std::marker::Model;

/// A request to a host.
#[derive(Debug, PartialEq, Eq, Drop)]
pub enum Request {
    /// The text that a path names.
    ReadText(Text),
    /// The store in the folder that a path names.
    OpenStore(Text),
    /// So many doors: with an address over its listener, and otherwise over the standard streams.
    OpenDoors(Option<Text>, u32),
}

/// The requests to a host so far. Once memory for one is refused nothing is recorded any more, and nothing else fails.
#[derive(Drop)]
pub struct Requests {
    alloc: Global,
    kept: Option<Vec<Request>>,
}

impl Model for Requests {
    ghost use Rattle.std.specs.Prelude.{List, Option, option_map};
    ghost use Rattle.program_host.specs.declared.requests.Request.{Request};

    ghost Value = { Option (List Request) };

    ghost view = { λ requests. option_map (λ list. list.items) requests.kept };
}

impl Requests {
    /// The record before the first request.
    pub fn new(alloc: Global) -> Requests
        ensures { result ≡ Some [] }
    {
        Requests {
            alloc,
            kept: Some(Vec::new(alloc)),
        }
    }

    /// The requests, or none once memory was refused for the record.
    pub fn list(&self) -> Option<&[Request]>
        ensures { option_copied result ≡ self.now }
    {
        self.kept.as_ref().map(|list| list.as_slice())
    }

    /// Records a request for the text of a path.
    pub fn add_text(&mut self, path: &str)
        ensures { Requested self.old self.new (Request.ReadText path.now ∷ []) }
    {
        let path = Text::from_slice(self.alloc, path.as_bytes());
        self.add(path.map(Request::ReadText));
    }

    /// Records a request for the store at a path.
    pub fn add_store(&mut self, path: &str)
        ensures { Requested self.old self.new (Request.OpenStore path.now ∷ []) }
    {
        let path = Text::from_slice(self.alloc, path.as_bytes());
        self.add(path.map(Request::OpenStore));
    }

    /// Records a request for doors.
    pub fn add_doors(&mut self, listen: Option<&str>, n: u32)
        ensures { Requested self.old self.new (Request.OpenDoors (option_copied listen.entry) n ∷ []) }
    {
        let request = match listen {
            Some(address) => Text::from_slice(self.alloc, address.as_bytes()).map(
                |address| Request::OpenDoors(Some(address), n),
            ),
            None => Ok(Request::OpenDoors(None, n)),
        };
        self.add(request);
    }

    fn add(&mut self, request: Result<Request, NoMemory>)
        ensures { MatchResult request (λ request. Requested self.old self.new (request ∷ [])) (λ refused. self.new ≡ None) }
    {
        let kept = self.kept.take();
        if let Ok(request) = request {
            self.kept = with_one_more(kept, request);
        }
    }
}

/// These requests and one more, unless memory is refused.
fn with_one_more(requests: Option<Vec<Request>>, request: Request) -> Option<Vec<Request>>
    ensures { Requested (option_map (λ list. list.items) requests) (option_map (λ list. list.items) result) (request ∷ []) }
{
    let mut requests = requests?;
    requests.push(request).ok()?;
    Some(requests)
}
