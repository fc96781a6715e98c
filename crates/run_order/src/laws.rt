// Laws on orders.
ghost use Rattle.run_order.specs.Orders.{TurnsAreOfHarts, TurnsAreTaken};

/// Does nothing. Its contract says that in each order the turns are those of harts, and that the turn of each comes just as
/// often as it has turns.
pub fn order_laws()
    ensures harts { TurnsAreOfHarts }
    ensures taken { TurnsAreTaken }
{}
