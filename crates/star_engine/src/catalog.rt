// The engine as a catalog: the schemas of its tables by name.
ghost use Rattle.star_engine.specs.EngineRepr.{schemas_of};

use crate::Engine;
use blink_base::Schema;
use star_bind::Catalog;
use word_pool::Ledger;

impl<M: Ledger> Catalog for Engine<M> {
    ghost schemas = { λ engine. schemas_of engine };

    fn find(&self, name: &str) -> Option<&Schema> {
        match self.image(name) {
            Some(image) => Some(image.schema()),
            None => None,
        }
    }
}
