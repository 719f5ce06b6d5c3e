// What the programs do with their surroundings: standard input and output, the arguments, and a file that is written.
#![tactic(auto)]

ghost use Rattle.std.specs.Prelude.{◌≤◌, length, IfSome, [], ◌∷◌};
ghost use Rattle.basics.specs.Text.{text};
ghost use Rattle.texts.specs.Said.{Puts};

use std::env::{Env, FillError};
use std::fs::File;
use std::io::{Read, Write};
use std::{fs, str};
use texts::buffer::Text;

// Bytes to standard output: false where not all of them can be written.
pub fn write(rt: &HostRuntime, bytes: &[u8]) -> bool {
    rt.write_all(bytes).is_ok()
}

// Ends the line that is put together in a buffer, and writes it.
#[tactic(auto, unfolding(basics::specs::Text::text))]
pub fn print(rt: &HostRuntime, line: &mut Text) -> bool
    ensures { Puts line.old line.new (text "\n" ∷ []) }
{
    line.put(b"\n");
    write(rt, line.so_far())
}

// A piece of standard input to the front of the buffer, and how many bytes it has: 0 at the end, and where the read fails.
pub fn read_some(rt: &HostRuntime, piece: &mut [u8]) -> usize
    ensures { result ≤ length piece.new }
{
    rt.stdin().read(piece).unwrap_or(0)
}

// Standard input until the buffer is full, the input ends or a read fails, and how many bytes stand at the buffer's front then.
pub fn read_full(rt: &HostRuntime, input: &mut [u8]) -> usize
    ensures { result ≤ length input.new }
{
    let mut done = 0;
    // A `while`: each read brings as many bytes as there are.
    while done < input.len() {
        let n = read_some(rt, &mut input[done..]);
        if n == 0 {
            return done;
        }
        done += n;
    }
    done
}

// An argument to the front of the buffer, and its length: none for one that is missing or longer than the buffer. Argument 0 is the program's
// name.
pub fn argument(rt: &HostRuntime, i: usize, word: &mut [u8]) -> Option<usize>
    ensures { IfSome result (λ n. n ≤ length word.new) }
{
    rt.arg(i, word).ok()
}

// How many arguments there are, the program's name among them.
pub fn argument_count(rt: &HostRuntime) -> usize {
    let mut word = [0u8; 1];
    for i in 0..usize::MAX {
        if let Err(FillError::NotPresent) = rt.arg(i, &mut word) {
            return i;
        }
    }
    usize::MAX
}

// Three parts to a file, one after the other: false where one cannot be written.
fn write_parts(file: &mut File, first: &[u8], second: &[u8], third: &[u8]) -> bool {
    file.write_all(first).is_ok() && file.write_all(second).is_ok() && file.write_all(third).is_ok()
}

// Makes the file of that name, or empties it, and writes three parts to it: false where that cannot be done, or the name is not UTF-8.
pub fn save(rt: &HostRuntime, name: &[u8], first: &[u8], second: &[u8], third: &[u8]) -> bool {
    let Ok(text) = str::from_utf8(name) else {
        return false;
    };
    let Ok(mut file) = fs::create(rt, text) else {
        return false;
    };
    write_parts(&mut file, first, second, third)
}
