// Prints a block of ChaCha20 as RFC 8439 does: sixteen words in hexadecimal, four to a line.
// Arguments: the path of a file of 32 bytes, the counter, and the three words of the nonce, as decimal numbers.
#![tactic(auto)]

use chacha20::block;
use chacha20::key::Key;
use fault::{Fault, finish, parsed, read_key, words};
use std::process::ExitCode;
use std::rt::{Env, Files};
use std::{fmt, io};

#[derive(Drop)]
struct Block([u32; 16]);

impl fmt::Display for Block {
    fn fmt<W: fmt::Write>(&self, f: &mut fmt::Formatter<W>) -> fmt::Result {
        let (rows, _) = self.0.as_chunks::<4>();
        for [a, b, c, d] in rows {
            writeln!(f, "{a:08x} {b:08x} {c:08x} {d:08x}")?;
        }
        Ok(())
    }
}

fn run<R: AllocGlobal + Env + Files>(rt: &R) -> Result<Block, Fault> {
    let mut words = words(rt)?;
    let (Some(path), Some(counter), Some(a), Some(b), Some(c), None) = (
        words.next(),
        parsed(words.next()),
        parsed(words.next()),
        parsed(words.next()),
        parsed(words.next()),
        words.next(),
    ) else {
        return Err(Fault::Usage("chacha20_block KEYFILE COUNTER WORD WORD WORD"));
    };
    let key = Key::new(&read_key(rt, path.as_str())?);
    let mut block = Block([0; 16]);
    block::fill(&mut block.0, &key, counter, [a, b, c]);
    Ok(block)
}

fn main(rt: HostRuntime) -> io::Result<ExitCode> {
    finish(&rt, "chacha20_block", run(&rt))
}
