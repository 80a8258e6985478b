// The labels of a window, one by one.
ghost use Rattle.std.specs.Prelude.{◌≡◌};
ghost use Rattle.std.specs.Iterator.{item_count, YieldsFirst};
ghost use Rattle.zone.specs.Labels.{labels_left, labels_of};

use crate::label::Label;
use crate::window::Window;

// The labels above `above`, up to `to`, the earliest first.
#[derive(Clone, Copy, Debug, PartialEq, Eq)]
pub struct Labels {
    pub(crate) above: Label,
    pub(crate) to: Label,
}

impl Iterator for Labels {
    type Item = Label;

    ghost next_gives = { YieldsFirst labels_left };

    ghost remaining = { item_count labels_left };

    fn next(&mut self) -> Option<Label> {
        let above = self.above.count();
        if above >= self.to.count() {
            return None;
        }
        self.above = Label::new(above + 1);
        Some(self.above)
    }
}

impl Window {
    // Its labels, the earliest first.
    pub fn labels(self) -> Labels
        ensures { labels_left result ≡ labels_of self }
    {
        Labels {
            above: self.above,
            to: self.to,
        }
    }
}
