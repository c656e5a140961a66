//! What may be the matter with the names of a document, and with its cables.
ghost use Rattle.std.specs.Prelude.{◌≡◌, is_some, not, map, option_map};
ghost use Rattle.std.specs.List.{list_all, find};
ghost use Rattle.toml.specs.View.{view};
ghost use Rattle.tsn_net.specs.Document.{IsPlace};
ghost use Rattle.tsn_net.specs.DocumentView.{document_view, texts_view, routes_view};
ghost use Rattle.tsn_net.specs.Conditions.{has_name, names_along};
ghost use Rattle.tsn_net.specs.Matter.{Finds};

use crate::document::{Document, text, text_at, texts_of};
use crate::index::below;
use crate::matter::Matter;
use crate::routes::routes_of;
use crate::schema::Key;
use toml::Value;
use tsn_model::{Code, Place};

impl<'a> Document<'a> {
    #[tactic(auto, unfolding(crate::specs::Conditions::duplicate_name, crate::specs::Conditions::holds))]
    pub(crate) fn duplicate_name(&self, place: Place) -> Option<Matter<'a>>
        requires { IsPlace (document_view self.now) place }
        ensures { Finds Code.DuplicateName (document_view self.now) place result }
    {
        match place {
            Place::Node(n) => {
                let name = text_at(self.value_at(place), Key::Name);
                match below(self.node_numbers.get(name), n) {
                    Some(number) => Some(Matter::TakenName(number)),
                    None => None,
                }
            }
            Place::Stream(i) => {
                let name = text_at(self.value_at(place), Key::Name);
                match below(self.stream_numbers.get(name), i) {
                    Some(number) => Some(Matter::TakenName(number)),
                    None => None,
                }
            }
            _ => None,
        }
    }

    #[tactic(auto, unfolding(crate::specs::Conditions::unknown_name, crate::specs::Conditions::holds))]
    pub(crate) fn unknown_name(&self, place: Place) -> Option<Matter<'a>>
        requires { IsPlace (document_view self.now) place }
        ensures { Finds Code.UnknownName (document_view self.now) place result }
    {
        match place {
            Place::Cable(_) => {
                let cable = self.value_at(place);
                let a = text_at(cable, Key::A);
                if !has_name(self, a) {
                    return Some(Matter::NoNode(a));
                }
                let b = text_at(cable, Key::B);
                if has_name(self, b) {
                    None
                } else {
                    Some(Matter::NoNode(b))
                }
            }
            Place::Stream(_) => match unknown_along(self, routes_of(self.value_at(place))) {
                Some(name) => Some(Matter::NoNode(name)),
                None => None,
            },
            _ => None,
        }
    }

    #[tactic(auto, unfolding(crate::specs::Conditions::duplicate_cable, crate::specs::Conditions::holds))]
    pub(crate) fn duplicate_cable(&self, place: Place) -> Option<Matter<'a>>
        requires { IsPlace (document_view self.now) place }
        ensures { Finds Code.DuplicateCable (document_view self.now) place result }
    {
        match place {
            Place::Cable(k) => {
                let cable = self.value_at(place);
                let a = text_at(cable, Key::A);
                let b = text_at(cable, Key::B);
                if a == b {
                    return Some(Matter::Loop);
                }
                match below(self.cable_numbers.get(&(a, b)), k) {
                    Some(number) => Some(Matter::TakenCable(number)),
                    None => None,
                }
            }
            _ => None,
        }
    }
}

// Whether one of the nodes has this name.
fn has_name(document: &Document<'_>, name: &str) -> bool
    ensures { result ≡ has_name (map view document.now.nodes.now) name.now }
{
    document.node_numbers.contains_key(name)
}

fn unknown_in<'a>(document: &Document<'_>, names: &'a [Value]) -> Option<&'a str>
    ensures first { option_map (λ name. name.now) result ≡ find (λ n. not (has_name (map view document.now.nodes.now) n)) (texts_view names.now) }
    ensures found { is_some result ≡ not (list_all (has_name (map view document.now.nodes.now)) (texts_view names.now)) }
{
    for value in names {
        let name = text(value);
        if !has_name(document, name) {
            return Some(name);
        }
    }
    None
}

// The first name along some routes that none of the nodes has.
fn unknown_along<'a>(document: &Document<'_>, routes: &'a [Value]) -> Option<&'a str>
    ensures first { option_map (λ name. name.now) result ≡ find (λ n. not (has_name (map view document.now.nodes.now) n)) (names_along (routes_view routes.now)) }
    ensures found { is_some result ≡ not (list_all (has_name (map view document.now.nodes.now)) (names_along (routes_view routes.now))) }
{
    for route in routes {
        if let Some(name) = unknown_in(document, texts_of(route)) {
            return Some(name);
        }
    }
    None
}
