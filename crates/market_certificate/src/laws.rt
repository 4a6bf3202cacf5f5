//! What holds of published texts.
ghost use Rattle.market_certificate.specs.Laws.{NoDefectInPublished, OnePublicationAText};

/// Two publications in their ranges that have one text are one publication.
pub fn one_publication_a_text()
    ensures { OnePublicationAText }
{}

/// The text of a publication has no defect.
pub fn no_defect_in_published()
    ensures { NoDefectInPublished }
{}
