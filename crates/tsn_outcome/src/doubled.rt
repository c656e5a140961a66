//! Words of `plan` and `prove` of which two lead to one file.
ghost use Rattle.std.specs.Prelude.{◌≡◌};

use std::alloc::{AllocError, Global};
use std::rt::Files;
use tsn_device::are_one_file;
use tsn_text::TextBuilder;
use tsn_words::Words;

// A file that a run reads or writes: the option and the word that name it, and its path.
#[derive(Clone, Copy)]
struct Named<'a> {
    option: &'a str,
    word: &'a str,
    path: &'a str,
}

// What is read: the network's file, and that of the plan to prove, if there is one.
#[derive(Clone, Copy)]
struct Inputs<'a> {
    network: &'a str,
    plan: Option<&'a str>,
}

/// Why the words are refused, where they name a file twice: the plan and the certificate that are written have to differ, and each of
/// these from what is read and from where standard output goes.
pub fn doubled_in<R: Files>(
    rt: &R,
    alloc: Global,
    words: &Words<'_>,
) -> Result<Option<String>, AllocError> {
    match words {
        Words::Plan(words) => {
            let inputs = Inputs {
                network: words.network,
                plan: None,
            };
            doubled_among(rt, alloc, inputs, words.plan, words.cert)
        }
        Words::Prove(words) => {
            let inputs = Inputs {
                network: words.network,
                plan: Some(words.given),
            };
            doubled_among(rt, alloc, inputs, words.plan, words.cert)
        }
        _ => Ok(None),
    }
}

fn doubled_among<R: Files>(
    rt: &R,
    alloc: Global,
    inputs: Inputs<'_>,
    plan: Option<&str>,
    cert: Option<&str>,
) -> Result<Option<String>, AllocError> {
    let plan = file_if_any("--plan ", plan);
    let cert = file_if_any("--cert ", cert);
    if let Some(text) = doubled_pair(rt, alloc, plan, cert)? {
        return Ok(Some(text));
    }
    if let Some(text) = doubled_beside(rt, alloc, inputs, plan)? {
        return Ok(Some(text));
    }
    doubled_beside(rt, alloc, inputs, cert)
}

// Why a file that is written is refused beside what is read and standard output.
fn doubled_beside<R: Files>(
    rt: &R,
    alloc: Global,
    inputs: Inputs<'_>,
    file: Option<Named<'_>>,
) -> Result<Option<String>, AllocError> {
    let network = Some(network_file(inputs.network));
    if let Some(text) = doubled_pair(rt, alloc, network, file)? {
        return Ok(Some(text));
    }
    let plan = file_if_any("", inputs.plan);
    if let Some(text) = doubled_pair(rt, alloc, plan, file)? {
        return Ok(Some(text));
    }
    doubled_pair(rt, alloc, file, Some(STANDARD_OUTPUT))
}

// Why two files are refused, where both are named and are one.
fn doubled_pair<R: Files>(
    rt: &R,
    alloc: Global,
    left: Option<Named<'_>>,
    right: Option<Named<'_>>,
) -> Result<Option<String>, AllocError> {
    let (Some(left), Some(right)) = (left, right) else {
        return Ok(None);
    };
    if !are_one_file(rt, alloc, left.path, right.path)? {
        return Ok(None);
    }
    let text = refusal(alloc, left, right)?;
    Ok(Some(text))
}

fn refusal(alloc: Global, left: Named<'_>, right: Named<'_>) -> Result<String, AllocError> {
    let mut text = TextBuilder::new(alloc);
    push_file(&mut text, "error: '", left);
    push_file(&mut text, "' and '", right);
    text.push_str("' lead to one file\n\nFor more information, try '--help'.\n");
    text.finish()
}

// Writes words, and how the file is named.
fn push_file(text: &mut TextBuilder, words: &str, file: Named<'_>) {
    text.push_str(words);
    text.push_str(file.option);
    text.push_str(file.word);
}

const STANDARD_OUTPUT: Named<'static> = Named {
    option: "",
    word: "standard output",
    path: "/dev/stdout",
};

fn network_file(word: &str) -> Named<'_> {
    Named {
        option: "",
        word,
        path: if word == "-" { "/dev/stdin" } else { word },
    }
}

// The file that a word names, behind an option where it has one.
fn file_if_any<'a>(option: &'static str, word: Option<&'a str>) -> Option<Named<'a>> {
    match word {
        Some(path) => Some(Named {
            option,
            word: path,
            path,
        }),
        None => None,
    }
}
