//! What is said to a score table when it is started.

ghost use Rattle.std.specs.Prelude.{◌≡◌, IfOk, string_bytes};
ghost use Rattle.table_service.specs.Gate.{IsToken};

use competition_file::CompetitionFile;
use std::alloc::{AllocError, Global};
use std::io;
use std::net::SocketAddr;
use std::random::RandomSource;

/// What is said to a score table when it is started.
#[derive(Drop)]
pub struct Setup {
    /// The name of the hall, for paper.
    pub title: String,
    /// The name of the table, for the remarks of what is entered.
    pub name: String,
    /// The hosts under which browsers find it, as `127.0.0.1:8080` and `localhost:8080`. A request
    /// that names another one is refused.
    pub hosts: Vec<String>,
    /// What each form carries so that it is accepted. It is drawn at random, so that no foreign
    /// page knows it.
    pub token: String,
    /// The commands with which the competition was set up, whose comments propose how later rounds
    /// are held; nothing where they are not known.
    pub proposals: Vec<u8>,
    /// The competition's file, where there is one.
    pub competition: Option<CompetitionFile>,
}

/// The token of these bytes.
fn token_of(alloc: Global, bytes: &[u8; 16]) -> Result<String, AllocError>
    ensures { IfOk result (λ token. IsToken (string_bytes token)) }
{
    let token = hex::encode(alloc, bytes.as_slice())?;
    Ok(token)
}

impl Setup {
    /// That of a table at this address: on this machine, its name is a host too. The token is 16
    /// random bytes as 32 hexadecimal digits.
    pub fn new<R: RandomSource>(
        source: &R,
        alloc: Global,
        address: SocketAddr,
        title: String,
        name: String,
        proposals: Vec<u8>,
        competition: Option<CompetitionFile>,
    ) -> io::Result<Setup>
        ensures title { IfOk result (λ s. s.title ≡ title) }
        ensures name { IfOk result (λ s. s.name ≡ name) }
        ensures proposals { IfOk result (λ s. s.proposals ≡ proposals) }
        ensures competition { IfOk result (λ s. s.competition ≡ competition) }
        ensures token { IfOk result (λ s. IsToken (string_bytes s.token)) }
    {
        let mut hosts = Vec::new(alloc);
        hosts.push(format!(in alloc; "{address}")?)?;
        if address.ip().is_loopback() {
            let port = address.port();
            hosts.push(format!(in alloc; "localhost:{port}")?)?;
        }
        let mut bytes = [0; 16];
        source.fill_bytes(&mut bytes)?;
        let token = token_of(alloc, &bytes)?;
        Ok(Setup {
            title,
            name,
            hosts,
            token,
            proposals,
            competition,
        })
    }
}
