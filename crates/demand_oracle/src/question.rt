// What is asked in one search, and what is looked up while it is answered.
use crate::goods::Goods;
use crate::names::Names;
use crate::reach::Reach;
use bundle_bounds::Offer;

// The best bundle of an offer, of those with the section of a place where one is given. The reach,
// the goods and the names are those of the offer.
#[derive(Clone, Copy)]
pub(crate) struct Question<'q, 'o> {
    pub(crate) offer: &'q Offer<'o>,
    pub(crate) given: Option<u8>,
    pub(crate) reach: &'q Reach,
    pub(crate) goods: &'q Goods,
    pub(crate) names: &'q Names<'q>,
}
