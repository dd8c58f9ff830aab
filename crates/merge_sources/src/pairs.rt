// The list of pairs, id and suffix in turn.
ghost use Rattle.std.specs.Prelude.{◌≡◌, map, ◌+◌, ◌*◌, ◌≤◌, ◌<◌, ◌/◌, length, get_or, take, []};
ghost use Rattle.rules.specs.Refusal.{all_of};
ghost use Rattle.rules.specs.Merge.{pairs_of, is_among, valid_pair, merge_figures};
ghost use Rattle.merge_sources.specs.Sources.{told};
ghost use Rattle.merge_sources.specs.Pairs.{pair_of, repeated_place, times_earlier};

// The list as pairs; a figure left over names no pair.
pub fn in_pairs(figures: &[i64]) -> &[[i64; 2]]
    ensures are_pairs { map pair_of result.now ≡ pairs_of figures.now }
    ensures as_many { length result.now ≡ length (pairs_of figures.now) }
{
    figures.as_chunks().0
}

// Every pair's id and suffix in range.
fn pairs_valid(list: &[[i64; 2]]) -> bool
    ensures { result ≡ all_of (map valid_pair (map pair_of list.now)) }
{
    list.iter().all(|&[id, suffix]| figures::valid_id(id) && figures::valid_suffix(suffix))
}

// 3: every figure in its range, an even list, 2 to 1,000 sources.
#[tactic(auto, unfolding(rules::specs::Merge::merge_figures, rules::specs::Figures::valid_count))]
pub fn figures_valid(id: i64, account: i64, series: i64, pairs: &[i64]) -> bool
    ensures { result ≡ merge_figures id account series pairs.now }
{
    let list = in_pairs(pairs);
    if pairs.len() % 2 != 0 || !(2..=1000).contains(&list.len()) {
        return false;
    }
    figures::valid_id(id)
        && figures::valid_account(account)
        && figures::valid_series(series)
        && pairs_valid(list)
}

// Whether the pair at a place stands at an earlier one.
fn stands_earlier(list: &[[i64; 2]], place: usize) -> bool
    requires { place < length list.now }
    ensures { result ≡ is_among (pair_of (get_or list.now place [])) (map pair_of (take place list.now)) }
{
    let pair = list[place];
    list[..place].iter().any(|other| lookup::key_same(pair[0], pair[1], other[0], other[1]))
}

// 9: the first pair that stood earlier in the list.
pub fn first_repeated(pairs: &[i64]) -> Option<usize>
    ensures { told result ≡ repeated_place pairs.now }
{
    let list = in_pairs(pairs);
    (0..list.len()).find(|&place| stands_earlier(list, place))
}

// How often the id at a place stands at earlier ones. By `filter` and `count` a merge of 1,000 sources of one id took nearly twice as long.
pub fn times_earlier(pairs: &[i64], place: usize) -> i64
    requires { (2 * place + 2 ≤ length pairs.now) × (place < 1000) }
    ensures { result ≡ times_earlier pairs.now place }
{
    let list = in_pairs(pairs);
    let id = list[place][0];
    let mut times = 0;
    for other in &list[..place] {
        if other[0] == id {
            times += 1;
        }
    }
    times
}
