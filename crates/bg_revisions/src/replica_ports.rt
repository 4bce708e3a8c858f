//! The form of a revision's ports.
ghost use Rattle.std.specs.Prelude.{◌≡◌, ◌&&◌, nat_le};
ghost use Rattle.std.specs.List.{list_all};
ghost use Rattle.bg_revisions.specs.PortLists.{are_ports, are_distinct as are_distinct_in};

/// Whether there are exactly `replicas` ports, all distinct and none 0.
pub fn are_replica_ports(replicas: u32, ports: &[u16]) -> bool
    ensures { result ≡ are_ports replicas ports.now }
{
    ports.len() == replicas as usize && have_port_numbers(ports) && are_distinct(ports)
}

fn have_port_numbers(ports: &[u16]) -> bool
    ensures { result ≡ list_all (λ p. nat_le 1 p && nat_le p 65535) ports.now }
{
    ports.iter().all(|port| is_port_number(*port))
}

fn is_port_number(port: u16) -> bool
    ensures { result ≡ (nat_le 1 port && nat_le port 65535) }
{
    port != 0
}

fn are_distinct(ports: &[u16]) -> bool
    ensures { result ≡ are_distinct_in ports.now }
{
    for (place, port) in ports.iter().enumerate() {
        if ports[place + 1..].contains(port) {
            return false;
        }
    }
    true
}
