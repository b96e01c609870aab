// The answer to a query over images.
ghost use Rattle.std.specs.Prelude.{◌≡◌, ◌<◌, ◌≤◌, ◌+◌, ◌*◌, IsTrue, IfOk, Some, length, slice_get, map};
ghost use Rattle.report_text.specs.AnswerText.{are_good_lines};
ghost use Rattle.star_bind.specs.BoundQuery.{Schemas, scope_of};
ghost use Rattle.star_bind.specs.declared.query.Tie.{Tie as OneTie};
ghost use Rattle.star_meaning.specs.Answer.{answer};
ghost use Rattle.star_sql.specs.declared.ast.Select.{Select};
ghost use Rattle.star_select.specs.Decodes.{key_decodes, most_decodes, tie_decodes};
ghost use Rattle.star_select.specs.ImageAnswer.{image_keys, rows_in};
ghost use Rattle.star_select.specs.KeySets.{keyed_of};
ghost use Rattle.star_select.specs.QueryImages.{IsQueryOf, IsQueryOver};

use crate::dimension_keys::dimension_keys;
use crate::fact_groups::fact_groups;
use crate::laws::{
    answers_by_codes, answers_have_dates, conditions_are_there, decodes_add_up, fact_named,
    fact_tests_apart, groups_can_finish, images_may_be_asked, keys_by_codes, keys_once,
    pages_are_joined, plans_are_there, sums_are_numbers, tables_have_images, ties_have_dimensions,
};
use crate::picks::wanted_columns;
use crate::query_finish::finish_of;
use crate::query_plan::plan_of;
use blink_base::Answer;
use cell_layout::Image;
use code_join::KeyMap;
use star_bind::Query;
use star_bind::laws::queries_have_shape;
use std::alloc::{AllocError, Global};
use word_pool::{Ledger, Steps};

// The keys of a tie, with the values that are wanted of its dimension.
fn tie_keys<M: Ledger>(
    alloc: Global,
    query: &Query,
    images: &[&Image<M>],
    place: usize,
    decodes: &mut Steps<M>,
) -> Result<KeyMap, AllocError>
    requires over { IsQueryOver (map (λ image. image.now) images.now) query.now }
    requires place { place < length query.now.ties }
    ensures keys { (schemas : Schemas) (s : Select) (tie : OneTie) → IsQueryOf schemas s (map (λ image. image.now) images.now) query.now → slice_get query.now.ties place ≡ Some tie → IfOk result (λ keys. keys ≡ keyed_of query.now (scope_of schemas s) (rows_in (map (λ image. image.now) images.now)) tie) }
    ensures decodes { (schemas : Schemas) (s : Select) (tie : OneTie) → IsQueryOf schemas s (map (λ image. image.now) images.now) query.now → slice_get query.now.ties place ≡ Some tie → decodes.new ≤ decodes.old + tie_decodes query.now (scope_of schemas s) (rows_in (map (λ image. image.now) images.now)) tie }
{
    queries_have_shape();
    images_may_be_asked();
    ties_have_dimensions();
    conditions_are_there();
    keys_by_codes();
    keys_once();
    let dimension = query.ties.as_slice()[place].dimension;
    let wanted = wanted_columns(alloc, query, dimension)?;
    dimension_keys(
        alloc,
        images[dimension as usize],
        query,
        dimension as usize,
        wanted.as_slice(),
        decodes,
    )
}

// The keys of each tie.
fn all_keys<M: Ledger>(
    alloc: Global,
    query: &Query,
    images: &[&Image<M>],
    decodes: &mut Steps<M>,
) -> Result<Vec<KeyMap>, AllocError>
    requires { IsQueryOver (map (λ image. image.now) images.now) query.now }
    ensures keys { (schemas : Schemas) (s : Select) → IsQueryOf schemas s (map (λ image. image.now) images.now) query.now → IfOk result (λ keys. keys.items ≡ image_keys query.now (scope_of schemas s) (map (λ image. image.now) images.now)) }
    ensures decodes { (schemas : Schemas) (s : Select) → IsQueryOf schemas s (map (λ image. image.now) images.now) query.now → decodes.new ≤ decodes.old + key_decodes query.now (scope_of schemas s) (rows_in (map (λ image. image.now) images.now)) }
{
    let mut keys = Vec::with_capacity(alloc, query.ties.len())?;
    for place in 0..query.ties.len() {
        keys.push(tie_keys(alloc, query, images, place, decodes)?)?;
    }
    Ok(keys)
}

/// The answer to a query over the rows that the images of its tables stand for, one a FROM entry in the order of FROM.
///
/// The query is that of a well formed statement that is accepted over the schemas of the images, which are valid and have at
/// most 8,388,608 rows each. Dimensions are filtered first, each to its keys with the values that are wanted of it; rows of
/// the fact are selected by sets of codes and grouped by codes, cell by cell, and decoded a group at a time. Of a selected row
/// of the fact at most the named columns are decoded, and of one of a dimension those and its key. Source: ISO/IEC 9075
/// (query expressions); after Raman et al., ICDE 2008 (star joins on codes, late decoding).
pub fn answer_query<M: Ledger>(
    alloc: Global,
    query: &Query,
    images: &[&Image<M>],
    decodes: &mut Steps<M>,
) -> Result<Answer, AllocError>
    requires { IsQueryOver (map (λ image. image.now) images.now) query.now }
    ensures answer { (schemas : Schemas) (s : Select) → IsQueryOf schemas s (map (λ image. image.now) images.now) query.now → IfOk result (λ given. given ≡ answer (scope_of schemas s) s (rows_in (map (λ image. image.now) images.now))) }
    // Each date in it is one of the calendar.
    ensures dates { IfOk result (λ given. IsTrue (are_good_lines given.lines)) }
    ensures decodes { (schemas : Schemas) (s : Select) → IsQueryOf schemas s (map (λ image. image.now) images.now) query.now → decodes.new ≤ decodes.old + most_decodes query.now (scope_of schemas s) (rows_in (map (λ image. image.now) images.now)) }
{
    queries_have_shape();
    tables_have_images();
    conditions_are_there();
    fact_named();
    fact_tests_apart();
    plans_are_there();
    pages_are_joined();
    sums_are_numbers();
    groups_can_finish();
    answers_by_codes();
    answers_have_dates();
    decodes_add_up();
    let plan = plan_of(alloc, query)?;
    let finish = finish_of(alloc, query)?;
    let keys = all_keys(alloc, query, images, decodes)?;
    let fact = images[query.fact as usize];
    let groups = fact_groups(alloc, fact, query, &plan, keys.as_slice(), decodes)?;
    groups.finish(alloc, &finish)
}
