//! What holds of published texts: each call here does nothing, and its contract is a law.
ghost use Rattle.accepted_publications.specs.Laws.{AcceptedOrFound, CertificateOfPublished, PublishedIsAccepted};

use market_menus::laws::each_has_a_menu;

/// The certificate holds of whatever a market publishes, for whatever order its sessions' commands
/// are taken in.
pub fn certificate_of_published()
    ensures { CertificateOfPublished }
{}

/// So its text is accepted by whoever checks it for the same market and the same sessions: with
/// catalogue, roll and settings in their ranges and at most 64 sessions, where the text is not of 2
/// ^ 64 bytes or more. That bound is there since a text is read with passes below 2 ^ 64 alone, and
/// no pass has a greater number than the text has bytes.
pub fn published_is_accepted()
    ensures { PublishedIsAccepted }
{}

/// Every text is accepted or has a first finding, where the catalogue and the roll are in their
/// ranges: it cannot be neither, whatever memory there is. So a text without a finding cannot be
/// one that is not accepted; an accepted one has none, and any other has not two
/// (`no_finding_in_accepted` and `one_first_finding` of `certificate_checker`).
pub fn accepted_or_found()
    ensures { AcceptedOrFound }
{
    each_has_a_menu();
}
