// The fact of a query.
ghost use Rattle.star_select.specs.FactRows.{MayGroup, fact_rows};

use cell_layout::Image;
use code_join::KeyMap;
use late_decode::GroupPlan;
use star_bind::Query;
use word_pool::Ledger;

// The image of a query's fact with the query's plan, and the key maps of its ties.
#[derive(Drop)]
pub(crate) struct Fact<'a, M: Ledger> {
    pub(crate) image: &'a Image<M>,
    pub(crate) query: &'a Query,
    pub(crate) plan: &'a GroupPlan,
    pub(crate) keys: &'a [KeyMap],
    ghost asked: { MayGroup (fact_rows image.now query.now keys.now) plan.now },
}
