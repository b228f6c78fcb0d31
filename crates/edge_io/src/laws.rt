//! What counts by kinds come to, as numbers: the contract of a function that does nothing.
ghost use Rattle.std.specs.Prelude.{◌≡◌};
ghost use Rattle.edge_io.specs.{Edges.{faults_of, one_more}, declared.EdgeCall.{EdgeCall}};

/// A failure of one kind adds one to the count of that kind, and to no other. A count stands still at
/// the greatest number of 64 bits.
#[tactic(auto, unfolding(dcp_io::specs::Counts::raised))]
pub fn kinds_in_numbers()
    ensures disks { one_more EdgeCall.OpenDisk (record { disks = 3; ears = 4; dials = 5 }) ≡ record { disks = 4; ears = 4; dials = 5 } }
    ensures ears { one_more EdgeCall.Listen (record { disks = 3; ears = 4; dials = 5 }) ≡ record { disks = 3; ears = 5; dials = 5 } }
    ensures dials { one_more EdgeCall.Dial (record { disks = 3; ears = 4; dials = 5 }) ≡ record { disks = 3; ears = 4; dials = 6 } }
    ensures end { one_more EdgeCall.Dial (record { disks = 0; ears = 0; dials = 18446744073709551615 }) ≡ record { disks = 0; ears = 0; dials = 18446744073709551615 } }
    ensures read_disks { faults_of EdgeCall.OpenDisk (record { disks = 3; ears = 4; dials = 5 }) ≡ 3 }
    ensures read_ears { faults_of EdgeCall.Listen (record { disks = 3; ears = 4; dials = 5 }) ≡ 4 }
    ensures read_dials { faults_of EdgeCall.Dial (record { disks = 3; ears = 4; dials = 5 }) ≡ 5 }
{}
