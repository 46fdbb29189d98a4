// What stands around a node in its function.
ghost use Rattle.std.specs.Prelude.{◌≡◌, bytes_eq, []};
ghost use Rattle.std.specs.List.{list_any};
ghost use Rattle.njs_tree.specs.Early as early;
ghost use Rattle.njs_early.specs.Around.{labels_of, around_of};

use njs_text::Text;

/// The labels around a node, the innermost first.
#[derive(Clone, Copy)]
pub enum Labels<'a> {
    Nothing,
    Inside(&'a Text, &'a Labels<'a>),
}

/// What stands around a node in its function.
#[derive(Clone, Copy)]
pub struct Around<'a> {
    pub in_function: bool,
    pub in_loop: bool,
    pub in_switch: bool,
    pub labels: &'a Labels<'a>,
}

/// Whether a label is one of these.
#[tactic(auto, unfolding(crate::specs::Around::labels_of))]
pub fn has_label(label: &Text, labels: &Labels<'_>) -> bool
    ensures { result ≡ list_any (bytes_eq label.now) (labels_of labels.now) }
{
    match labels {
        Labels::Nothing => false,
        Labels::Inside(other, others) => *label == **other || has_label(label, others),
    }
}

impl<'a> Around<'a> {
    /// Around the items of a script.
    pub fn outermost(no_labels: &'a Labels<'a>) -> Around<'a>
        requires { labels_of no_labels.now ≡ [] }
        ensures { around_of result ≡ early.outermost }
    {
        Around {
            in_function: false,
            in_loop: false,
            in_switch: false,
            labels: no_labels,
        }
    }

    /// Around the body of a function, which starts anew.
    pub fn of_function(no_labels: &'a Labels<'a>) -> Around<'a>
        requires { labels_of no_labels.now ≡ [] }
        ensures { around_of result ≡ early.of_function }
    {
        Around {
            in_function: true,
            ..Around::outermost(no_labels)
        }
    }

    /// Around the body of a loop.
    pub fn of_loop(&self) -> Around<'a>
        ensures { around_of result ≡ early.of_loop (around_of self.now) }
    {
        Around {
            in_loop: true,
            ..*self
        }
    }

    /// Around the cases of a `switch`.
    pub fn of_switch(&self) -> Around<'a>
        ensures { around_of result ≡ early.of_switch (around_of self.now) }
    {
        Around {
            in_switch: true,
            ..*self
        }
    }

    /// Around the statement behind a label, where these are the labels.
    pub fn with_labels<'b>(&self, labels: &'b Labels<'b>) -> Around<'b>
        ensures { around_of result ≡ record { in_function = self.now.in_function; in_loop = self.now.in_loop; in_switch = self.now.in_switch; labels = labels_of labels.now } }
    {
        Around {
            in_function: self.in_function,
            in_loop: self.in_loop,
            in_switch: self.in_switch,
            labels,
        }
    }
}
