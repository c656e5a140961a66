//! Parts of an argument: whether each of their numbers is within its limit; and that each has a form in a file, since lists of frames and of
//! orders have no other lengths than there.
ghost use Rattle.std.specs.Prelude.{◌≡◌, ◌&&◌, map, Some};
ghost use Rattle.std.specs.List.{list_all};
ghost use Rattle.tsn_cert.specs.Json.{array_value};
ghost use Rattle.tsn_cert.specs.Form as forms;

/// A part of an argument, whose numbers have limits.
pub trait Limited: Sized {
    ghost use Rattle.std.specs.Prelude.{Bool};
    ghost use Rattle.serde_json.specs.Data.{Data};
    ghost use Rattle.tsn_cert.specs.Form.{Form};

    ghost form: { Form Self };

    ghost within: { Self → Bool };

    ghost printed: { Self → Data };

    /// Whether each number of the part is within its limit. A form in the file it has in any case.
    fn fits(&self) -> bool
        ensures fits { result ≡ within self.now }
        ensures grammar { form.said (printed self.now) ≡ Some self.now };
}

/// Whether each number of the parts is within its limit.
pub(crate) fn all_fit<T: Limited>(parts: &[T]) -> bool
    ensures fits { result ≡ list_all T.within parts.now }
    ensures grammar { (forms.list T.form).said (array_value (map T.printed parts.now)) ≡ Some parts.now }
{
    let mut all = true;
    for part in parts {
        all = both(all, part.fits());
    }
    all
}

pub(crate) fn both(first: bool, second: bool) -> bool
    ensures { result ≡ (first && second) }
{
    first && second
}
