use checkout_command::CheckoutAnswer;

/// What a checkout answers, once it is done.
#[derive(Drop)]
pub enum CheckoutReply {
    /// There is no such ref.
    NoRef,
    /// What came of the commit that is named.
    Tried(CheckoutAnswer),
}
