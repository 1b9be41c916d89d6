//! Facts of `decode`, each in a row that was written by hand from the standard: the definitions say them too, so that no
//! proof would see one that is wrong in both.

mod changes;
mod codes;
mod formats;
mod lines;
mod values;

use crate::checks::{is_true, joined};
use crate::run::run_on;
use changes::CHANGES;
use codes::{CODES, NAMES};
use formats::FORMATS;
use lines::LINES;
use std::alloc::{AllocError, Global};
use std::process::Abort;
use std::test::Fail;
use values::VALUES;

/// What a row has read, how many packets these are, what it has shown, what it has said on standard error, and the line like which
/// further packets are.
#[derive(Drop)]
struct Texts {
    like: String,
    read: String,
    packets: usize,
    told: String,
    said: String,
}

impl Texts {
    fn none(alloc: Global) -> Texts {
        Texts {
            like: String::new(alloc),
            read: String::new(alloc),
            packets: 0,
            told: String::new(alloc),
            said: String::new(alloc),
        }
    }

    // Further packets are like this line.
    fn set_like(&mut self, like: &str) -> Result<(), AllocError> {
        self.like.clear();
        self.like.push_str(like)
    }

    // One more line of packets that are like the line that was set: it has an `@` for what differs in them, and one for what
    // differs in what is shown.
    fn add_like(&mut self, alloc: Global, line: &str) -> Result<(), AllocError> {
        let like = joined(alloc, &[self.like.as_str()])?;
        let mut parts = like.as_str().split('@');
        let (Some(packet), Some(said), Some(end)) = (parts.next(), parts.next(), parts.next())
        else {
            return Ok(());
        };
        for pair in line.split("; ") {
            if let Some((bytes, words)) = pair.split_once(" = ") {
                self.add(alloc, &joined(alloc, &[packet, bytes, said, words, end])?)?;
            }
        }
        Ok(())
    }

    // One more line of a row. What is shown of a packet begins with its number, but for an object of JSON, which has it inside.
    fn add(&mut self, alloc: Global, line: &str) -> Result<(), AllocError> {
        if let Some(words) = line.strip_prefix("? ") {
            return self.said.push_str(&joined(alloc, &["pmb: ", words, "\n"])?);
        }
        if let Some(counts) = line.strip_prefix("count ") {
            for count in counts.split(", ") {
                self.told
                    .push_str(&joined(alloc, &["count ", count, "\n"])?)?;
            }
            return Ok(());
        }
        let Some((packet, said)) = line.split_once(" -> ") else {
            return self.told.push_str(&joined(alloc, &[line, "\n"])?);
        };
        self.read.push_str(&joined(alloc, &[packet, "\n"])?)?;
        self.packets = self.packets.saturating_add(1);
        if !said.starts_with("{") {
            let number = self.packets;
            self.told.push_str(&format!(in alloc; "{number} ")?)?;
        }
        self.told.push_str(&joined(alloc, &[said, "\n"])?)
    }
}

// A run on what a row has read shows and says what the row says.
fn is_told(rt: &(impl Abort + AllocGlobal), words: &[&str], status: u8, texts: &Texts) {
    let found = run_on(rt.alloc(), words, texts.read.as_str());
    let told = found.output.taken.split(|byte| *byte == b'\n');
    for (line, wanted) in told.zip(texts.told.split('\n')) {
        is_true(rt, line == wanted.as_bytes(), &(words, wanted));
    }
    let is = found.is(status, texts.told.as_str(), texts.said.as_str());
    is_true(rt, is, &words);
}

// Each row of this text is shown as it says. A row begins with `$`, the status and the words. Then each line is a packet and,
// after ` -> `, what is shown of it; counts, each of which has a line of its own; another line that is shown at the end, or on
// standard error if it begins with `? `; or what the row is for, after `// `. Packets that are alike stand under a line after
// `* `, whose `@` stand for what differs in them and in what is shown: pairs of both, as `80 7D = 80 BUSY; 40 33 = 40 OFF`.
fn are_told(rt: &(impl Abort + AllocGlobal), text: &str) -> Result<(), Fail> {
    for row in text.split("\n$ ").skip(1) {
        let mut words = Vec::new(rt.alloc());
        let mut texts = Texts::none(rt.alloc());
        let mut status = 0;
        for (number, line) in row.split('\n').enumerate() {
            if number == 0 {
                status = u8::from(line.starts_with("1 "));
                for word in line.split(' ').skip(1) {
                    words.push(word)?;
                }
            } else if let Some(other) = line.strip_prefix("* ") {
                texts.set_like(other)?;
            } else if line.contains(" = ") {
                texts.add_like(rt.alloc(), line)?;
            } else if !line.is_empty() && !line.starts_with("// ") {
                texts.add(rt.alloc(), line)?;
            }
        }
        is_told(rt, words.as_slice(), status, &texts);
    }
    Ok(())
}

#[test]
fn each_fact_of_a_capture_is_told(rt: HostRuntime) -> Result<(), Fail> {
    are_told(&rt, VALUES)?;
    are_told(&rt, CODES)?;
    are_told(&rt, FORMATS)?;
    are_told(&rt, LINES)?;
    are_told(&rt, CHANGES)
}

// A read of 01 02 03 04 by each code, or of 01 02 03 05 if the last byte is the code's PEC.
#[test]
fn each_code_is_told_by_its_name(rt: HostRuntime) -> Result<(), Fail> {
    let mut texts = Texts::none(rt.alloc());
    for name in NAMES.split(',') {
        let name = name.trim();
        let code = name.split(' ').next().unwrap_or("");
        let bytes = if code == "3A" {
            "01 02 03 05"
        } else {
            "01 02 03 04"
        };
        #[rattlefmt::skip]
        let line = [
            "B0 ", code, " / B1 ", bytes, " -> 58 code ", name, " read ", bytes, ", no PEC",
        ];
        texts.add(rt.alloc(), &joined(rt.alloc(), &line)?)?;
    }
    for name in NAMES.split(',') {
        let code = name.trim().split(' ').next().unwrap_or("");
        texts.add(
            rt.alloc(),
            &joined(rt.alloc(), &["count code ", code, " 1"])?,
        )?;
    }
    texts.add(rt.alloc(), "lines 256 accepted 0 other 256 faults 0 bad 0")?;
    is_told(&rt, &["pmb", "decode", "--all"], 0, &texts);
    Ok(())
}
