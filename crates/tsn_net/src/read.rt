//! Reads a network file.
ghost use Rattle.std.specs.Prelude.{◌≡◌, ◌⊎◌, Some, None, IfOk, IfErr, IsOkUnless};
ghost use Rattle.toml.specs.Data.{table};
ghost use Rattle.toml.specs.View.{view, table_view};
ghost use Rattle.tsn_net.specs.Document.{document_of};
ghost use Rattle.tsn_net.specs.DocumentView.{document_view};
ghost use Rattle.tsn_net.specs.Conditions.{fault_of};
ghost use Rattle.tsn_net.specs.Matter.{amiss_fault};
ghost use Rattle.tsn_net.specs.Problem.{problem_of};
ghost use Rattle.tsn_net.specs.File.{Spells, States, HasFault, IsFaultless, out_of_memory};

use crate::conditions::Amiss;
use crate::document::Document;
use crate::problem::problem_of;
use crate::words::{not_toml_words, words_of};
use std::alloc::Global;
use toml::{Table, Value};
use tsn_model::{Code, NetFault, Place};
use tsn_timing::Problem;

/// Reads a network file. A fault is the least condition that holds, at the first place where it holds; want of memory
/// may come in place of any answer.
pub fn read_problem(alloc: Global, bytes: &[u8]) -> Result<Problem, NetFault>
    ensures problem { IfOk result (States bytes.now) }
    ensures fault { IfErr result (λ fault. (fault ≡ out_of_memory) ⊎ HasFault bytes.now fault) }
    ensures accepted { IsFaultless bytes.now → IsOkUnless result out_of_memory }
{
    match read_or_refuse(alloc, bytes) {
        Ok(problem) => Ok(problem),
        Err(refused) => {
            let Refused { fault, words } = refused;
            drop(words);
            Err(fault)
        }
    }
}

/// Why a network file is refused.
#[derive(Drop)]
pub struct Refused {
    pub fault: NetFault,
    /// What is the matter, and where, in words; None where there was no memory for them.
    pub words: Option<String>,
}

impl Refused {
    fn memory() -> Refused
        ensures { result.fault ≡ out_of_memory }
    {
        Refused {
            fault: NetFault {
                code: Code::Memory,
                place: Place::Text,
            },
            words: None,
        }
    }
}

/// Does what `read_problem` does, and says besides in words what is the matter with a file that is refused.
pub fn read_or_refuse(alloc: Global, bytes: &[u8]) -> Result<Problem, Refused>
    ensures problem { IfOk result (States bytes.now) }
    ensures fault { IfErr result (λ refused. (refused.fault ≡ out_of_memory) ⊎ HasFault bytes.now refused.fault) }
    ensures accepted { IsFaultless bytes.now → IfErr result (λ refused. refused.fault ≡ out_of_memory) }
{
    let top = Value::Table(parse(alloc, bytes)?);
    problem_in(alloc, &top)
}

// The problem that the top table of a file states, or why it states none.
fn problem_in(alloc: Global, top: &Value) -> Result<Problem, Refused>
    ensures problem { IfOk result (λ problem. (fault_of (document_of (view top.now)) ≡ None) × (problem ≡ problem_of (document_of (view top.now)))) }
    ensures fault { IfErr result (λ refused. (refused.fault ≡ out_of_memory) ⊎ (fault_of (document_of (view top.now)) ≡ Some refused.fault)) }
{
    match Document::of(alloc, top) {
        Ok(document) => stated(alloc, &document),
        Err(_) => Err(Refused::memory()),
    }
}

// The problem that a document states, or why it states none.
fn stated(alloc: Global, document: &Document<'_>) -> Result<Problem, Refused>
    ensures problem { IfOk result (λ problem. (fault_of (document_view document.now) ≡ None) × (problem ≡ problem_of (document_view document.now))) }
    ensures fault { IfErr result (λ refused. (refused.fault ≡ out_of_memory) ⊎ (fault_of (document_view document.now) ≡ Some refused.fault)) }
{
    if let Some(amiss) = document.amiss() {
        return Err(refused_for(alloc, document, amiss));
    }
    match problem_of(alloc, document) {
        Ok(problem) => Ok(problem),
        Err(_) => Err(Refused::memory()),
    }
}

// Why a document is refused, by what is the matter with it.
fn refused_for(alloc: Global, document: &Document<'_>, amiss: Amiss<'_>) -> Refused
    ensures { result.fault ≡ amiss_fault amiss.entry }
{
    Refused {
        fault: amiss.fault(),
        words: words_of(alloc, document.names(amiss.place), amiss),
    }
}

fn parse(alloc: Global, bytes: &[u8]) -> Result<Table, Refused>
    ensures table { IfOk result (λ t. Spells bytes.now (document_of (table (table_view t)))) }
    ensures fault { IfErr result (λ refused. (refused.fault ≡ out_of_memory) ⊎ HasFault bytes.now refused.fault) }
    ensures accepted { IsFaultless bytes.now → IfErr result (λ refused. refused.fault ≡ out_of_memory) }
{
    match toml::table_from_slice(alloc, bytes) {
        Ok(table) => Ok(table),
        Err(error) => {
            if error.is_memory() {
                return Err(Refused::memory());
            }
            Err(Refused {
                fault: NetFault {
                    code: Code::NotToml,
                    place: Place::Text,
                },
                words: not_toml_words(alloc, error),
            })
        }
    }
}
