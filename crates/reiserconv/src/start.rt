ghost use Rattle.std.specs.Prelude.{◌<◌, ◌^◌, IfOk};

use host_edge::Ids;
use reiserconv_talk::Missing;
use std::env::Env;
use std::io::ErrorKind;
use std::random::RandomSource;
use std::time::{Clock, SystemTime};
use std::{env, io};
use uuid::Builder;

/// What a run starts with, beside the disk and the sinks.
#[derive(Drop)]
pub struct Start {
    /// The words of the command line, without the program's name.
    pub words: Vec<String>,
    /// Four new random identifiers.
    pub ids: Ids,
    /// The seconds since 1970.
    pub now: u64,
    ghost bounded: { now < 2 ^ 63 },
}

impl Start {
    /// Asks the system for all of it.
    pub fn new<R: Env + Clock + RandomSource + AllocGlobal>(rt: &R) -> Result<Start, Missing> {
        Ok(Start {
            words: words(rt)?,
            ids: Ids {
                fsid: random_id(rt)?,
                device: random_id(rt)?,
                chunk_tree: random_id(rt)?,
                subvolume: random_id(rt)?,
            },
            now: seconds(rt)?,
        })
    }
}

/// The words of the command line, without the program's name.
fn words<R: Env + AllocGlobal>(rt: &R) -> Result<Vec<String>, Missing> {
    let args = match env::args(rt) {
        Ok(args) => args,
        Err(e) => return Err(wordless(e)),
    };
    let mut words = Vec::new(rt.alloc());
    for word in args.skip(1) {
        if words.push(word).is_err() {
            return Err(Missing::Memory);
        }
    }
    Ok(words)
}

/// Why there are no words.
fn wordless(e: io::Error) -> Missing {
    if e.kind() == ErrorKind::InvalidData {
        Missing::Text
    } else {
        Missing::Memory
    }
}

/// A random identifier of version 4.
fn random_id<R: RandomSource>(rt: &R) -> Result<[u8; 16], Missing> {
    let mut bytes = [0; 16];
    if rt.fill_bytes(&mut bytes).is_err() {
        return Err(Missing::Random);
    }
    Ok(Builder::from_random_bytes(bytes).into_uuid().into_bytes())
}

/// The seconds since 1970, where they are below 2^63.
fn seconds<R: Clock>(rt: &R) -> Result<u64, Missing>
    ensures { IfOk result (λ now. now < 2 ^ 63) }
{
    let Ok(now) = SystemTime::now(rt) else {
        return Err(Missing::Time);
    };
    match now.duration_since(SystemTime::UNIX_EPOCH) {
        Ok(since) if since.as_secs() < 1 << 63 => Ok(since.as_secs()),
        _ => Err(Missing::Time),
    }
}
